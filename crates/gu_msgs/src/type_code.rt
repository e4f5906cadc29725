//! Codes of message types.

ghost use Rattle.std.specs.Prelude.{◌≡◌, ◌↔◌, IfSome, IsSome, IsTrue};
ghost use Rattle.gu_msgs.specs.MsgTypes.{is_type_text};

use crate::msg_type::is_type_text;
use gu_terms::Padded;
use std::marker::Model;

/// The most bytes in the code of a type.
const LONGEST_CODE: usize = 3;

/// The code of a message's type (FIX: MsgType, tag 35): one to three letters or digits. To a contract it is these bytes.
#[derive(Clone, Copy, Debug)]
pub struct TypeCode {
    code: Padded<LONGEST_CODE>,
}

impl Model for TypeCode {
    ghost use Rattle.std.specs.Prelude.{ℕ, List, IsTrue};

    ghost Value = { List ℕ };

    ghost use Rattle.gu_msgs.specs.MsgTypes.{is_type_text};

    ghost view = { λ it. it.code };

    ghost invariant = { λ it. IsTrue (is_type_text it.code) };

    ghost inverse = { λ code. record { code = code } };
}

impl TypeCode {
    /// Returns the code with these bytes, if they have the form of one.
    pub fn new(code: &[u8]) -> Option<Self>
        ensures sound { IsSome result ↔ IsTrue (is_type_text code.now) }
        ensures same { IfSome result (λ it. it ≡ code.now) }
    {
        if !is_type_text(code) {
            return None;
        }
        Some(TypeCode {
            code: Padded::new(code),
        })
    }

    /// Returns its bytes.
    pub fn get(&self) -> &[u8]
        ensures code { result.now ≡ self.now }
        ensures sound { IsTrue (is_type_text self.now) }
    {
        self.code.get()
    }
}
