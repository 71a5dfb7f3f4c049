//! The traits of the crate `serde` for characters, in any format. A character is written as a
//! `char`, which a format such as JSON writes as a string of one character.

ghost use Rattle.std.specs.Prelude.{IfOk};
ghost use Rattle.ascii_base.specs.Code.{code_of};
ghost use Rattle.serde.specs.Event.{Logs, character};
ghost use Rattle.serde.specs.Steps.{Gives};

use crate::ascii_char::{AsciiChar, ToAsciiChar};
use serde::{
    Described, Deserialize, DeserializeOwned, Deserializer, Format, Serialize, Serializer,
};
use std::alloc::Global;

impl Described for AsciiChar {
    ghost writes = { λ ch old new. Logs old new (character (code_of ch)) };
}

impl Serialize for AsciiChar {
    /// Writes the character as a `char`.
    ///
    ///     serde_json::to_string(alloc, &AsciiChar::a)? // "\"a\""
    ///     serde_json::to_string(alloc, &AsciiChar::LineFeed)? // "\"\\n\""
    fn serialize<S: Serializer>(&self, out: &mut S) -> Result<(), S::Error> {
        out.char(self.as_char())
    }
}

impl DeserializeOwned for AsciiChar {
    /// Reads a `char`, or returns an error if it is not ASCII. Does not allocate.
    ///
    ///     let (one, two) = (Value::from_str(alloc, "\"a\"")?, Value::from_str(alloc, "\"ab\"")?);
    ///     serde_json::from_value::<AsciiChar>(alloc, one).ok() // Some('a')
    ///     serde_json::from_value::<AsciiChar>(alloc, two).is_err() // true
    fn deserialize_owned<F: Format>(
        _alloc: Global,
        from: &mut Deserializer<'_, '_, F>,
    ) -> Result<AsciiChar, F::Error>
        ensures { IfOk result (λ ch. Gives F.gives from.old (character (code_of ch)) from.new) }
    {
        match from.char()?.to_ascii_char() {
            Ok(ch) => Ok(ch),
            Err(error) => Err(from.custom(error.description())),
        }
    }
}

impl<'de> Deserialize<'de> for AsciiChar {
    /// Reads a `char`, or returns an error if it is not ASCII. Does not allocate.
    ///
    ///     serde_json::from_str::<AsciiChar>(alloc, "\"a\"").ok() // Some('a')
    ///     serde_json::from_str::<AsciiChar>(alloc, "\"č\"").is_err() // true
    fn deserialize<F: Format>(
        alloc: Global,
        from: &mut Deserializer<'de, '_, F>,
    ) -> Result<AsciiChar, F::Error>
        ensures { IfOk result (λ ch. Gives F.gives from.old (character (code_of ch)) from.new) }
    {
        AsciiChar::deserialize_owned(alloc, from)
    }
}
