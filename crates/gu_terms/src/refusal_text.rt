//! The texts of refusals.

ghost use Rattle.std.specs.Prelude.{◌≡◌, ◌+◌, ◌≤◌, length};
ghost use Rattle.gu_terms.specs.LimitKeys.{name_of_key};
ghost use Rattle.gu_terms.specs.Names.{IsName};
ghost use Rattle.gu_terms.specs.Refusals.{named_with_key};

use crate::limit_key::LimitKey;
use crate::padded::Padded;
use std::marker::Model;

/// The most bytes in the text of a refusal.
const LONGEST_TEXT: usize = 48;

/// A refusal's text, stored in place. To a contract it is its bytes.
#[derive(Clone, Copy, Debug)]
pub struct RefusalText {
    text: Padded<LONGEST_TEXT>,
}

impl Model for RefusalText {
    ghost use Rattle.std.specs.Prelude.{ℕ, List};

    ghost Value = { List ℕ };

    ghost view = { λ it. it.text };

    ghost inverse = { λ text. record { text = text } };
}

impl RefusalText {
    /// Returns a refusal's name as its text.
    pub(crate) fn of_name(name: &str) -> Self
        requires { length name.now ≤ 20 }
        ensures { result ≡ name.now }
    {
        RefusalText {
            text: Padded::new(name.as_bytes()),
        }
    }

    /// Returns a refusal's name followed by a key.
    pub(crate) fn of_key(name: &str, key: LimitKey) -> Self
        requires { length name.now ≤ 20 }
        ensures text { result ≡ named_with_key name.now key }
        ensures sound { IsName (name_of_key key) }
    {
        let text = Padded::new(name.as_bytes())
            .with(b" ")
            .with(key.kind().as_bytes())
            .with(b" ")
            .with(key.name());
        RefusalText { text }
    }

    /// Returns its bytes.
    pub fn get(&self) -> &[u8]
        ensures { result.now ≡ self.now }
    {
        self.text.get()
    }
}
