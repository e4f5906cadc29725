//! Consequences of the definitions alone.

ghost use Rattle.std.specs.Prelude.{◌≡◌, Some, ℕ, List};
ghost use Rattle.gu_ref.specs.File.{IsReadFrom, IsFirstFault};
ghost use Rattle.gu_ref.specs.Tables.{Tables};
ghost use Rattle.gu_ref.specs.declared.error.RefFault.{RefFault};

/// A text is either accepted or refused for a fault, never both, and in only one way.
pub fn one_answer()
    ensures never_both { (text : List ℕ) (reference : Tables) (fault : RefFault)
        → IsReadFrom (Some text) reference → ¬ IsFirstFault (Some text) fault }
    ensures one_reference { (text : List ℕ) (one other : Tables)
        → IsReadFrom (Some text) one → IsReadFrom (Some text) other → one ≡ other }
    ensures one_fault { (text : List ℕ) (one other : RefFault)
        → IsFirstFault (Some text) one → IsFirstFault (Some text) other → one ≡ other }
{}
