//! Bytes that were received or sent, as events of a log. The loops do nothing at run time: a log takes no memory.

ghost use Rattle.std.specs.Prelude.{◌≡◌, ◌++◌, map};
ghost use Rattle.ascii_devices.specs.declared.log.Event.TheVariants.{Received, Sent};

use crate::log::{Event, Log};

/// Notes bytes that were received.
#[inline]
pub(crate) fn note_received(log: &mut Log<Event>, bytes: &[u8])
    ensures { log.new.items ≡ log.old.items ++ map Received bytes.now }
{
    for &byte in bytes {
        *log = log.and(&Event::Received(byte));
    }
}

/// Notes bytes that were sent.
#[inline]
pub(crate) fn note_sent(log: &mut Log<Event>, bytes: &[u8])
    ensures { log.new.items ≡ log.old.items ++ map Sent bytes.now }
{
    for &byte in bytes {
        *log = log.and(&Event::Sent(byte));
    }
}
