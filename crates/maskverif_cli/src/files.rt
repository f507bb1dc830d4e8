//! The answers that take files to be read.

ghost use Rattle.std.specs.Prelude.{◌≡◌, ◌≤◌, ℕ, List, [], Option, None, IfOk, IfErr, length};
ghost use Rattle.std.specs.Option.{option_copied};
ghost use Rattle.mv_files.specs.Disk.{IsWhole, SameFiles};
ghost use Rattle.mv_files.specs.Told.{WhereTold};
ghost use Rattle.maskverif_cli.specs.declared.status.Status.TheVariants as status;
ghost use Rattle.command_words.specs.Commands.{check_request, verify_request};
ghost use Rattle.verify_question.specs.Asking.{IsAsked};
ghost use Rattle.maskverif_cli.specs.Answer.{AnswersCheck, AnswersVerify};
ghost use Rattle.maskverif_cli.specs.Reply.{CountsReads, Ends, Halts, Lacks, MayFail};

use crate::check::check;
use crate::reply::{Halt, Reply, refused};
use crate::status::Status;
use crate::verify::{accepted, verify};
use certificate::MOST_BYTES as MOST_CERTIFICATE_BYTES;
use circuit_types::{Refusal, Which};
use command_words::{Checking, Verification};
use mv_files::{Files, ReadStop, read_whole};
use rtlil_lex::MOST_BYTES;
use std::alloc::Global;
use worker_pool::Way;

/// The answer where a file is missing.
fn no_file(alloc: Global) -> Reply
    ensures status { result.status ≡ status.NoFile }
    ensures text { result.text.items ≡ [] }
    ensures certificate { result.certificate ≡ None }
{
    Reply {
        status: Status::NoFile,
        text: Vec::new(alloc),
        certificate: None,
    }
}

/// All bytes of the file of this name, if it has at most `limit` bytes; that it has more is refused as too much of this.
fn read_file<F: Files>(
    alloc: Global,
    files: &mut F,
    name: &str,
    limit: usize,
    which: Which,
) -> Result<Vec<u8>, Halt>
    ensures whole { IfOk result (λ bytes. IsWhole name.now (F.disk files.old) bytes.items) }
    ensures short { IfOk result (λ bytes. length bytes.items ≤ limit) }
    ensures lacks { IfErr result (λ halt. (wish : Option (List ℕ))
        → Halts (Lacks (F.disk files.old) name.now limit which) wish MayFail halt) }
    ensures reads { CountsReads (F.read_faults files.old) (F.read_faults files.new) result }
    ensures writes { F.write_faults files.new ≡ F.write_faults files.old }
    ensures same { WhereTold SameFiles (F.disk files.old) (F.disk files.new) }
{
    match read_whole(alloc, files, name, limit as u64) {
        Ok(bytes) => Ok(bytes),
        Err(ReadStop::Missing) => Err(Halt::Due(no_file(alloc))),
        Err(ReadStop::TooLong) => Err(refused(alloc, Refusal::Limit(which))),
        Err(ReadStop::ReadFault) => Err(Halt::ReadFault),
        Err(ReadStop::NoMemory) => Err(Halt::NoMemory),
    }
}

/// What is answered to the netlist of a file.
pub fn verify_file<F: Files>(
    alloc: Global,
    asked: Verification<'_>,
    files: &mut F,
) -> Result<Reply, Halt>
    requires asked { IsAsked asked.question }
    requires crew { 1 ≤ asked.workers }
    ensures due { Ends (AnswersVerify (F.disk files.old) (verify_request asked.entry))
        (option_copied asked.entry.certificate) MayFail result }
    ensures reads { CountsReads (F.read_faults files.old) (F.read_faults files.new) result }
    ensures writes { F.write_faults files.new ≡ F.write_faults files.old }
    ensures same { WhereTold SameFiles (F.disk files.old) (F.disk files.new) }
{
    let bytes = read_file(alloc, files, asked.netlist, MOST_BYTES, Which::FileBytes)?;
    let way = Way {
        workers: asked.workers,
        schedule: asked.schedule,
    };
    verify(
        alloc,
        asked.question,
        way,
        asked.certificate,
        bytes.as_slice(),
    )
}

/// What is answered to the certificate of a file, for the netlist of a file.
pub fn check_files<F: Files>(
    alloc: Global,
    asked: Checking<'_>,
    files: &mut F,
) -> Result<Reply, Halt>
    requires { IsAsked asked.question }
    ensures due { Ends (AnswersCheck (F.disk files.old) (check_request asked.entry)) None MayFail result }
    ensures reads { CountsReads (F.read_faults files.old) (F.read_faults files.new) result }
    ensures writes { F.write_faults files.new ≡ F.write_faults files.old }
    ensures same { WhereTold SameFiles (F.disk files.old) (F.disk files.new) }
{
    let bytes = read_file(alloc, files, asked.netlist, MOST_BYTES, Which::FileBytes)?;
    let netlist = accepted(alloc, asked.question, bytes.as_slice())?;
    let certificate = read_file(
        alloc,
        files,
        asked.certificate,
        MOST_CERTIFICATE_BYTES,
        Which::CertificateBytes,
    )?;
    let reply = check(alloc, asked.question, &netlist, certificate.as_slice())?;
    Ok(reply)
}
