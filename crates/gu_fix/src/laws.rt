//! Laws of frames and fields, each proved for every stream and every list of fields.
ghost use Rattle.std.specs.Prelude.{◌≡◌, List, ℕ, [], ◌∷◌, ◌++◌, None, Option};
ghost use Rattle.std.specs.List.{concat};
ghost use Rattle.gu_fix.specs.WholeMessage.{IsWhole};
ghost use Rattle.gu_fix.specs.Stream.{AreFrames, Stands, IsOpen, LeadsOn, TakesPieces};
ghost use Rattle.gu_fix.specs.TagValue.{TagValue};
ghost use Rattle.gu_fix.specs.Fields.{HasFields};
ghost use Rattle.gu_fix.specs.Encoding.{message_of, fields_of_message, fault_of};
ghost use Rattle.gu_fix.specs.declared.error.FieldFault.{FieldFault};

/// No whole message is a proper prefix of another.
pub fn no_whole_message_begins_another()
    ensures { (message other rest : List ℕ) → IsWhole message → IsWhole other → other ≡ message ++ rest → rest ≡ [] }
{}

/// No bytes both begin with a message and could still be continued to one.
pub fn nothing_stands_and_is_open()
    ensures { (bytes : List ℕ) → Stands bytes → ¬ (IsOpen bytes) }
{}

/// A stream has at most one list of frames.
pub fn one_list_of_frames()
    ensures { (stream : List ℕ) (frames others : List (List ℕ))
        → AreFrames stream frames → AreFrames stream others → frames ≡ others }
{}

/// Each stream has a list of frames.
pub fn frames_exist()
    ensures { (stream : List ℕ) → (frames : List (List ℕ)) × AreFrames stream frames }
{}

/// A whole message at the start is the first frame, and is followed by the frames of the rest.
pub fn a_message_in_front_is_the_first_frame()
    ensures { (message rest : List ℕ) (frames : List (List ℕ))
        → IsWhole message → AreFrames rest frames → AreFrames (message ++ rest) (message ∷ frames) }
{}

/// However a stream is cut into pieces, a new feed gives the frames of the joined stream, and what it keeps leads on from there.
pub fn frames_are_those_of_the_joined_pieces()
    ensures { (pieces given : List (List ℕ)) (kept : List ℕ)
        → TakesPieces [] pieces given kept → AreFrames (concat pieces) given × LeadsOn (concat pieces) given kept }
{}

/// Bytes read as fields in at most one way.
pub fn one_reading()
    ensures { (bytes : List ℕ) (fields others : List TagValue) (fault other : Option FieldFault)
        → HasFields bytes fields fault → HasFields bytes others other → (fields ≡ others) × (fault ≡ other) }
{}

/// The message of fields without a fault is whole.
pub fn a_message_of_sound_fields_is_whole()
    ensures { (fields : List TagValue) → fault_of fields ≡ None → IsWhole (message_of fields) }
{}

/// An encoded message is read back: BeginString, BodyLength, the fields, and CheckSum, with no fault.
pub fn a_message_is_read_back()
    ensures { (fields : List TagValue) → fault_of fields ≡ None → HasFields (message_of fields) (fields_of_message fields) None }
{}
