//! Laws of the words of a statement: what the reader computes from them is what the definitions say.

ghost use Rattle.std.specs.Prelude.{◌≡◌, ◌↔◌, ℕ, List, Some, filter, false};
ghost use Rattle.std.specs.List.{AllByRecursion};
ghost use Rattle.circuit_types.specs.declared.signal.Signal.{Signal};
ghost use Rattle.circuit_types.specs.declared.tree.Attribute.{Attribute};
ghost use Rattle.rtlil_tree.specs.declared.options.WireOption.{WireOption};
ghost use Rattle.rtlil_tree.specs.Lexemes.{Lexeme, Spelled, Says, AreSaid};
ghost use Rattle.rtlil_tree.specs.Lines.{Line, AreLines};
ghost use Rattle.rtlil_tree.specs.Said.{said_by, lexemes_of};
ghost use Rattle.rtlil_tree.specs.Statements.{Statement, IsStatement, AreSignals, options_said, wire_lexemes};
ghost use Rattle.rtlil_tree.specs.Forms.{FileForm, WireForm, ModuleForm, CellForm};
ghost use Rattle.rtlil_tree.specs.Forms.{signals_of, file_form_of, module_form_of, cell_form_of};
ghost use Rattle.rtlil_tree.specs.Refusals.{is_supported};
ghost use Rattle.rtlil_tree.specs.Machine.{wire_made};
ghost use Rattle.rtlil_tree.specs.Placed.{IsFormed, AreFormed, IsOnLine, IsWireForm, file_form, module_form, cell_form};

/// Each token of the lines of a text has the form of its kind.
pub fn tokens_are_formed()
    ensures { (bytes : List ℕ) (lines : List Line) (end_line : ℕ) → AreLines bytes lines end_line
        → AllByRecursion (λ (line : Line). AreFormed line.tokens) lines }
{}

/// A token of such a form says a lexeme exactly where the reader finds it. So it says at most one.
pub fn tokens_are_read()
    ensures token { (x : Lexeme) (t : Spelled) → IsFormed t → Says x t ↔ (said_by t ≡ Some x) }
    ensures tokens { (xs : List Lexeme) (ts : List Spelled) → AreFormed ts → AreSaid xs ts ↔ (lexemes_of ts ≡ Some xs) }
    ensures once { (xs ys : List Lexeme) (ts : List Spelled) → AreSaid xs ts → AreSaid ys ts → xs ≡ ys }
{}

/// Words are signals exactly where the reader finds these signals.
pub fn signals_are_read()
    ensures { (ss : List Signal) (xs : List Lexeme) → AreSignals ss xs ↔ (signals_of xs ≡ Some ss) }
{}

/// Words are those of a wire, with `inout` or without, exactly where the reader finds it; and the wire that the reader
/// makes of one without `inout` is that of the statement.
pub fn wires_are_read()
    ensures found { (f : WireForm) (line : ℕ) (xs : List Lexeme)
        → IsWireForm f xs ↔ (module_form_of line xs ≡ Some (ModuleForm.wire f)) }
    ensures made { (f : WireForm) (line : ℕ) (xs : List Lexeme) (held : List Attribute)
        → module_form_of line xs ≡ Some (ModuleForm.wire f) → f.options.inout ≡ false
        → IsStatement (Statement.wire (wire_made line held f)) line xs }
{}

/// A wire without its `inout` says the same otherwise, and some tokens say it.
pub fn inout_is_left_out()
    ensures options { (options : List WireOption)
        → options_said (filter is_supported options) ≡ record (options_said options) { inout = false } }
    ensures tokens { (options : List WireOption) (name : List ℕ) (ts : List Spelled)
        → AreSaid (wire_lexemes options name) ts
        → (us : List Spelled) × AreSaid (wire_lexemes (filter is_supported options) name) us }
{}

/// Words are a statement that may stand between modules exactly where the reader finds its form, and each form that
/// it finds is one of a statement. So words are of one form there.
pub fn file_statements_are_read()
    ensures found { (s : Statement) (f : FileForm) (line : ℕ) (xs : List Lexeme) → file_form s ≡ Some f
        → IsStatement s line xs ↔ (IsOnLine s line × (file_form_of xs ≡ Some f)) }
    ensures some { (f : FileForm) (line : ℕ) (xs : List Lexeme)
        → file_form_of xs ≡ Some f → (s : Statement) × (file_form s ≡ Some f) × IsStatement s line xs }
    ensures one { (s t : Statement) (f g : FileForm) (line : ℕ) (xs : List Lexeme)
        → file_form s ≡ Some f → file_form t ≡ Some g → IsStatement s line xs → IsStatement t line xs → f ≡ g }
{}

/// Words are a statement that may stand in a module exactly where the reader finds its form, and each form that it
/// finds is one of a statement, but for a wire with `inout`. So words are of one form there.
pub fn module_statements_are_read()
    ensures found { (s : Statement) (f : ModuleForm) (line : ℕ) (xs : List Lexeme) → module_form s ≡ Some f
        → IsStatement s line xs ↔ (IsOnLine s line × (module_form_of line xs ≡ Some f)) }
    ensures some { (f : ModuleForm) (line : ℕ) (xs : List Lexeme)
        → ((w : WireForm) → f ≡ ModuleForm.wire w → w.options.inout ≡ false)
        → module_form_of line xs ≡ Some f → (s : Statement) × (module_form s ≡ Some f) × IsStatement s line xs }
    ensures one { (s t : Statement) (f g : ModuleForm) (line : ℕ) (xs : List Lexeme)
        → module_form s ≡ Some f → module_form t ≡ Some g → IsStatement s line xs → IsStatement t line xs → f ≡ g }
{}

/// Words are a statement that may stand in a cell exactly where the reader finds its form, and each form that it
/// finds is one of a statement. So words are of one form there.
pub fn cell_statements_are_read()
    ensures found { (s : Statement) (f : CellForm) (line : ℕ) (xs : List Lexeme) → cell_form s ≡ Some f
        → IsStatement s line xs ↔ (IsOnLine s line × (cell_form_of line xs ≡ Some f)) }
    ensures some { (f : CellForm) (line : ℕ) (xs : List Lexeme)
        → cell_form_of line xs ≡ Some f → (s : Statement) × (cell_form s ≡ Some f) × IsStatement s line xs }
    ensures one { (s t : Statement) (f g : CellForm) (line : ℕ) (xs : List Lexeme)
        → cell_form s ≡ Some f → cell_form t ≡ Some g → IsStatement s line xs → IsStatement t line xs → f ≡ g }
{}
