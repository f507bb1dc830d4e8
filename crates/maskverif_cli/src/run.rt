//! The command over files and a sink.

ghost use Rattle.std.specs.Prelude.{◌≡◌, ◌≤◌, ◌⊎◌, ℕ, List, Some, IsTrue, OnErr, OnOk, MatchResult};
ghost use Rattle.std.specs.declared.string.String.{String};
ghost use Rattle.std.specs.declared.alloc.Global.{Global};
ghost use Rattle.std.specs.Option.{option_copied};
ghost use Rattle.mv_files.specs.Counts.{Rose};
ghost use Rattle.mv_files.specs.Disk.{Disk};
ghost use Rattle.mv_files.specs.Told.{WhereTold};
ghost use Rattle.maskverif_cli.specs.declared.status.Status.{Status};
ghost use Rattle.maskverif_cli.specs.Answer.{AskAboutAccepted, AskForGadget, IsDue, NewFile, is_answer, is_decided, is_made};
ghost use Rattle.maskverif_cli.specs.Run.{Runs, Stores};
ghost use Rattle.maskverif_cli.specs.Reply.{Breaks, Concludes, Delivers, Finishes, new_file, outside};

use crate::files::{check_files, verify_file};
use crate::gadgets::{generate, trial};
use crate::laws::{accepted_is_decided, gadget_is_made, one_answer_is_due};
use crate::reply::{Halt, Reply};
use crate::report;
use crate::status::Status;
use command_words::{Command, one_command, read_words};
use mv_files::{Files, Sink, WriteFault, send_whole, write_whole};
use std::alloc::Global;

/// Writes the certificate to the file of this name, where both are there.
fn keep<F: Files>(
    files: &mut F,
    name: Option<&str>,
    certificate: &Option<Vec<u8>>,
) -> Result<(), WriteFault>
    ensures stored { OnOk result (WhereTold (Stores (new_file (option_copied name.entry) certificate.now))
        (F.disk files.old) (F.disk files.new)) }
    ensures breaks { OnErr result (Breaks (new_file (option_copied name.entry) certificate.now)
        (F.disk files.old) (F.disk files.new) (F.write_faults files.old) (F.write_faults files.new)) }
    ensures writes { OnOk result (F.write_faults files.new ≡ F.write_faults files.old) }
    ensures reads { F.read_faults files.new ≡ F.read_faults files.old }
{
    let Some(name) = name else {
        return Ok(());
    };
    let Some(certificate) = certificate else {
        return Ok(());
    };
    write_whole(files, name, certificate.as_slice())
}

/// Sends the text that is due with a status.
fn finish<O: Sink>(out: &mut O, text: &[u8], status: Status) -> Status
    ensures { Finishes text.now status (O.written out.old) (O.written out.new)
        (O.faults out.old) (O.faults out.new) result }
{
    match send_whole(out, text) {
        Ok(()) => status,
        Err(_) => Status::WriteFault,
    }
}

/// Writes the file that is due, and then the text.
fn deliver<F: Files, O: Sink>(
    files: &mut F,
    out: &mut O,
    name: Option<&str>,
    reply: Reply,
) -> Status
    ensures { Delivers reply.status reply.text.items (new_file (option_copied name.entry) reply.certificate)
        (outside (F.disk files.old) (O.written out.old) (F.read_faults files.old) (F.write_faults files.old) (O.faults out.old))
        (outside (F.disk files.new) (O.written out.new) (F.read_faults files.new) (F.write_faults files.new) (O.faults out.new))
        result }
{
    let Reply {
        status,
        text,
        certificate,
    } = reply;
    match keep(files, name, &certificate) {
        Ok(()) => finish(out, text.as_slice(), status),
        Err(_) => Status::WriteFault,
    }
}

/// Writes what is due, if something is.
fn conclude<F: Files, O: Sink>(
    files: &mut F,
    out: &mut O,
    name: Option<&str>,
    end: Result<Reply, Halt>,
) -> Status
    ensures { Concludes (option_copied name.entry) end
        (outside (F.disk files.old) (O.written out.old) (F.read_faults files.old) (F.write_faults files.old) (O.faults out.old))
        (outside (F.disk files.new) (O.written out.new) (F.read_faults files.new) (F.write_faults files.new) (O.faults out.new))
        result }
{
    match end {
        Ok(reply) => deliver(files, out, name, reply),
        Err(Halt::Due(reply)) => deliver(files, out, name, reply),
        Err(Halt::ReadFault) => Status::ReadFault,
        Err(Halt::NoMemory) => Status::NoMemory,
    }
}

/// Runs the command that the words are.
fn run_command<F: Files, O: Sink>(
    alloc: Global,
    words: &[String],
    files: &mut F,
    out: &mut O,
) -> Status
    ensures { Runs words.now
        (outside (F.disk files.old) (O.written out.old) (F.read_faults files.old) (F.write_faults files.old) (O.faults out.old))
        (outside (F.disk files.new) (O.written out.new) (F.read_faults files.new) (F.write_faults files.new) (O.faults out.new))
        result }
{
    let Some(command) = read_words(words) else {
        return finish(out, report::usage(), Status::Usage);
    };
    match command {
        Command::Verify(asked) => {
            let end = verify_file(alloc, asked, files);
            conclude(files, out, asked.certificate, end)
        }
        Command::Check(asked) => {
            let end = check_files(alloc, asked, files);
            conclude(files, out, None, end)
        }
        Command::Generate(asked) => {
            let end = generate(alloc, asked);
            conclude(files, out, None, end)
        }
        Command::Trial(asked) => {
            let end = trial(alloc, asked);
            conclude(files, out, None, end)
        }
    }
}

/// Runs the command that the words are over these files, and writes its report to the sink: `verify NOTION ORDER MODEL
/// NETLIST [--workers N] [--certificate OUT] [--schedule SEED]`, `check NOTION ORDER MODEL NETLIST CERTIFICATE`,
/// `generate SEED SHARES` or `trial SEED SHARES`. It waits for nobody and always returns.
pub fn run_plain<F: Files, O: Sink>(
    alloc: Global,
    words: &[String],
    files: &mut F,
    out: &mut O,
) -> Status
    // What is answered and written where no call failed; else which call failed, and what it leaves.
    ensures runs { Runs words.now
        (record {
          disk = F.disk files.old;
          written = O.written out.old;
          read_faults = F.read_faults files.old;
          write_faults = F.write_faults files.old;
          sink_faults = O.faults out.old;
        })
        (record {
          disk = F.disk files.new;
          written = O.written out.new;
          read_faults = F.read_faults files.new;
          write_faults = F.write_faults files.new;
          sink_faults = O.faults out.new;
        }) result }

    // Where the files tell their bytes, no other answer is due: each comes exactly where it is due.
    ensures only { (disk : Disk) (due : Status) (text : List ℕ) (file : NewFile) → F.disk files.old ≡ Some disk
        → IsTrue (is_answer result) → IsDue words.now (Some disk) due text file → result ≡ due }

    // An accepted netlist is decided, and a certificate for one is checked, unless a call failed or memory was refused.
    ensures complete { AskAboutAccepted words.now (F.disk files.old)
        → ¬ Rose (F.read_faults files.old) (F.read_faults files.new)
        → ¬ Rose (F.write_faults files.old) (F.write_faults files.new)
        → ¬ Rose (O.faults out.old) (O.faults out.new) → IsTrue (is_decided result) }

    // A gadget's text is made, unless a call failed or memory was refused.
    ensures made { AskForGadget words.now → ¬ Rose (O.faults out.old) (O.faults out.new) → IsTrue (is_made result) }
{
    one_command();
    one_answer_is_due();
    accepted_is_decided();
    gadget_is_made();
    run_command(alloc, words, files, out)
}
