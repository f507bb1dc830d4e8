//! What a reader may want to know of the definitions. Each law is a contract; its body is empty.
ghost use Rattle.std.specs.Prelude.{◌≡◌, ◌↔◌, ℕ, List, Some};
ghost use Rattle.circuit_types.specs.Due.{IsClear, IsDue};
ghost use Rattle.circuit_types.specs.declared.nets.Nets.{Nets as AnyNets};
ghost use Rattle.circuit_types.specs.declared.refusal.Refusal.{Refusal as AnyRefusal};
ghost use Rattle.circuit_types.specs.declared.tree.Item.{Item as AnyItem};
ghost use Rattle.share_notes.specs.Causes.{role_causes};
ghost use Rattle.share_notes.specs.Marks.{most_shares};
ghost use Rattle.share_notes.specs.Reading.{note_named};
ghost use Rattle.share_notes.specs.Text.{IsTextOf};
ghost use Rattle.share_notes.specs.declared.mark.TheConstants.{MOST_SHARES};
ghost use Rattle.share_notes.specs.declared.note.Note.{Note as AnyNote};

/// The limit of the code is that of the definitions.
pub fn limits()
    ensures { MOST_SHARES ≡ most_shares }
{}

/// Bytes are read as a note exactly where they are its text; so they are the text of at most one.
pub fn notes_and_texts()
    ensures { (bytes : List ℕ) (note : AnyNote) → (note_named bytes ≡ Some note) ↔ IsTextOf note bytes }
{}

/// At most one refusal of a module's notes is due, and none where no cause holds.
pub fn one_refusal()
    ensures one { (items : List AnyItem) (nets : AnyNets) (r s : AnyRefusal)
        → IsDue (role_causes items nets) r → IsDue (role_causes items nets) s → r ≡ s }
    ensures none { (items : List AnyItem) (nets : AnyNets) (r : AnyRefusal)
        → IsClear (role_causes items nets) → IsDue (role_causes items nets) r → ⊥ }
{}
