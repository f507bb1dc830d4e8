//! What a reader may want to know of the definitions. Each law is a contract over all words and files; its
//! body makes no call that does anything.

ghost use Rattle.std.specs.Prelude.{◌≡◌, ℕ, List, Option, Some, IsTrue};
ghost use Rattle.std.specs.declared.string.String.{String};
ghost use Rattle.std.specs.declared.alloc.Global.{Global};
ghost use Rattle.mv_files.specs.Disk.{Disk};
ghost use Rattle.maskverif_cli.specs.declared.status.Status.{Status};
ghost use Rattle.maskverif_cli.specs.declared.status.Status.TheVariants.{Accepted};
ghost use Rattle.maskverif_cli.specs.Answer.{AskAboutAccepted, AskForGadget, ChecksWhatWasWritten, IsDue, NewFile, is_decided, is_made};

/// Where the files tell their bytes, at most one answer is due to words, with one text and one file. So each answer of
/// [`run_plain`](crate::run_plain) that is no fault and no want of memory comes exactly where it is due.
pub fn one_answer_is_due()
    ensures { (words : List (String Global)) (disk : Disk) (status other : Status) (text written : List ℕ) (file made : NewFile)
        → IsDue words (Some disk) status text file → IsDue words (Some disk) other written made
        → (status ≡ other) × (text ≡ written) × (file ≡ made) }
{
    accepted_netlist::one_netlist_or_refusal();
    term_build::one_instance();
    command_words::one_command();
    cert_check::one_outcome();
    cert_check::certified_is_accepted();
}

/// Where the words ask about a netlist that is accepted, and no certificate is too long or missing, a verdict on the netlist
/// or on the certificate is the only answer that is due. Each gadget is accepted.
pub fn accepted_is_decided()
    ensures { (words : List (String Global)) (disk : Option Disk) (status : Status) (text : List ℕ) (file : NewFile)
        → AskAboutAccepted words disk → IsDue words disk status text file → IsTrue (is_decided status) }
{
    accepted_netlist::one_netlist_or_refusal();
    accepted_gadget::gadgets_are_accepted();
    command_words::one_command();
}

/// Where the words ask for the text of a gadget, that it is made is the only answer that is due.
pub fn gadget_is_made()
    ensures { (words : List (String Global)) (disk : Option Disk) (status : Status) (text : List ℕ) (file : NewFile)
        → AskForGadget words → IsDue words disk status text file → IsTrue (is_made status) }
{
    command_words::one_command();
}

/// A certificate that `verify` wrote is accepted by `check` with the same netlist, notion, order and model.
pub fn what_was_written_is_accepted()
    ensures { (words others : List (String Global)) (disk later : Disk) (answer : Status) (text : List ℕ) (file : NewFile)
        → ChecksWhatWasWritten words others disk later → IsDue others (Some later) answer text file
        → answer ≡ Accepted }
{
    accepted_netlist::one_netlist_or_refusal();
    term_build::one_instance();
    command_words::one_command();
    cert_check::one_outcome();
    cert_check::certified_is_accepted();
}
