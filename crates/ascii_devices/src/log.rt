//! What happened at a device, in order, for contracts.
//!
//! A `Log` is a list that only contracts see: it takes no memory, and its methods do nothing at run time. A device that
//! keeps a history has a field `Log<Event>`, appends what happens, and gives `history` of its `Source` or `Sink` as
//! `Some log.items`.

ghost use Rattle.std.specs.Prelude.{◌≡◌, List, [], ◌∷◌, ◌++◌};
ghost use Rattle.std.specs.Borrow.{ftrue};

use std::marker::{Model, PhantomData};

/// A list of items that only contracts see, as `items`. It takes no memory.
#[derive(Drop)]
pub struct Log<A> {
    of: PhantomData<A>,
    // The items, in order.
    pub ghost items: { List A },
}

impl<A> Model for Log<A> {
    ghost also_owns = { λ _. ftrue };
}

impl<A> Log<A> {
    /// Creates an empty log. Does nothing at run time.
    ///
    ///     let _log: Log<Event> = Log::new();
    ///     std::mem::size_of::<Log<Event>>() // 0
    pub fn new() -> Log<A>
        ensures { result.items ≡ [] }
    {
        Log { of: PhantomData }
    }

    /// Returns the log with `item` after its items. Does nothing at run time.
    ///
    ///     let _log = Log::new().and(&Event::Sent(97)).and(&Event::Flushed);
    ///     std::mem::size_of::<Log<Event>>() // 0
    pub fn and(&self, item: &A) -> Log<A>
        ensures { result.items ≡ self.now.items ++ item.now ∷ [] }
    {
        Log { of: PhantomData }
    }
}

/// What happened at a device.
#[derive(Clone, Copy, PartialEq, Eq, Debug)]
pub enum Event {
    /// It was asked for bytes.
    Read,
    /// It gave this byte.
    Received(u8),
    /// It took this byte.
    Sent(u8),
    /// It has passed on all bytes that it took.
    Flushed,
}
