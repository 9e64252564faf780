//! The program over any source and sinks.
ghost use Rattle.std.specs.Prelude.{◌≡◌, ◌≢◌, ◌⊎◌, ◌↔◌, ◌==◌, ◌≤◌, ℕ, Some, None, OnOk, IfOk, IfErr, IfSome};
ghost use Rattle.byte_streams.specs.Faults.{Rose, faults_after};
ghost use Rattle.join_command.specs.Commands.{command_of, IsPossible};
ghost use Rattle.join_command.specs.Errors.{status_of, line_of, status_after};
ghost use Rattle.join_command.specs.Replies.{reply_to, HasNoRefusal};
ghost use Rattle.join_command.specs.Runs.{IsStatus, IsRefused, IsTextOf, WritesText, WritesFront, TakesFront, WritesLine, TellsCause, IsGiven, IsReplied};

use crate::{Command, ToolError, answer_request, command_of};
use col_core::Blob;
use generated_text::generated_text;
use join_text::{Sink, Source, read_to_end, write_all};
use std::alloc::Global;
use std::sync::ledger::Ledger;
use step_count::Steps;

/// The greatest number of bytes of a request.
pub const REQUEST_LIMIT: usize = 1 << 28;

/// Tells of an error in a line, and answers its status. A fault of the sink changes no status.
pub fn report<E: Sink>(errors: &mut E, e: ToolError) -> u8
    ensures status { result ≡ status_of e }
    ensures line { WritesLine (E.held errors.old) (E.held errors.new)
        (E.faults errors.old) (E.faults errors.new) (line_of e) }
    ensures never_falls { E.faults errors.old ≤ E.faults errors.new }
{
    let _ = write_all(errors, e.line().as_str().as_bytes());
    e.status()
}

/// The text that answers a command. For an answer it reads the request from the source, and for nothing
/// else does it read.
fn command_text<S: Source, L: Ledger>(
    alloc: Global,
    command: Command,
    source: &mut S,
    steps: &mut Steps<L>,
) -> Result<Blob, ToolError>
    requires { IsPossible command }
    ensures text { IfOk result (IsTextOf (Some command) (S.left source.old) (S.left source.new)) }
    ensures causes { IfErr result (λ e. (status_of e ≢ 2) × (status_of e ≢ 7)) }
    ensures unread { command ≢ Command.Answer → source.new ≡ source.old }
    ensures generated { command ≢ Command.Answer → IfErr result (λ e. status_of e ≡ 8) }
    ensures taken { TakesFront (S.left source.old) (S.left source.new) (status_after result) }
    ensures refused { IfErr result (λ e. 5 ≤ status_of e → status_of e ≤ 6 →
        IsRefused (S.left source.old) (S.left source.new) e) }
    ensures read_faults { S.faults source.new ≡
        faults_after (status_after result == 3) (S.faults source.old) }
    ensures reads_never_fall { S.faults source.old ≤ S.faults source.new }
{
    match command {
        Command::Answer => {
            let request = read_to_end(alloc, source, REQUEST_LIMIT)?;
            answer_request(alloc, &request, steps)
        }
        Command::Generate(n) => Ok(generated_text(alloc, n, steps)?),
    }
}

/// Answers the command of the words, and writes the text. The clauses are those of `run_tool`, without
/// what the error stream is told.
fn run_command<S: Source, O: Sink, L: Ledger>(
    alloc: Global,
    words: &[String],
    source: &mut S,
    out: &mut O,
    steps: &mut Steps<L>,
) -> Result<(), ToolError>
    ensures answered { OnOk result (WritesText (command_of words.now)
        (S.left source.old) (S.left source.new) (O.held out.old) (O.held out.new)) }
    ensures usage { (status_after result ≡ 2) ↔ (command_of words.now ≡ None) }
    ensures unread { command_of words.now ≢ Some Command.Answer → source.new ≡ source.old }
    ensures generated { (n : ℕ) → command_of words.now ≡ Some (Command.Generate n) →
        IfErr result (λ e. (status_of e ≡ 7) ⊎ (status_of e ≡ 8)) }
    ensures taken { TakesFront (S.left source.old) (S.left source.new) (status_after result) }
    ensures refused { IfErr result (λ e. 5 ≤ status_of e → status_of e ≤ 6 →
        IsRefused (S.left source.old) (S.left source.new) e) }
    ensures front { status_after result ≡ 7 → WritesFront (command_of words.now)
        (S.left source.old) (S.left source.new) (O.held out.old) (O.held out.new) }
    ensures untouched { 2 ≤ status_after result → status_after result ≢ 7 → out.new ≡ out.old }
    ensures read_faults { S.faults source.new ≡
        faults_after (status_after result == 3) (S.faults source.old) }
    ensures write_faults { O.faults out.new ≡
        faults_after (status_after result == 7) (O.faults out.old) }
    ensures reads_never_fall { S.faults source.old ≤ S.faults source.new }
    ensures writes_never_fall { O.faults out.old ≤ O.faults out.new }
{
    let command = match command_of(words) {
        Some(command) => command,
        None => return Err(ToolError::Usage),
    };
    let text = command_text(alloc, command, source, steps)?;
    write_all(out, text.as_slice())?;
    Ok(())
}

/// Runs the program: without words it answers the request that the source gives, and with `gen N` the
/// generated input of `N` build rows. Answers the exit status. A source or a sink that does not tell its
/// bytes leaves the clauses on bytes without content.
pub fn run_tool<S: Source, O: Sink, E: Sink, L: Ledger>(
    alloc: Global,
    words: &[String],
    source: &mut S,
    out: &mut O,
    errors: &mut E,
    steps: &mut Steps<L>,
) -> u8
    ensures status { IsStatus result }

    // 0: the text of the command was written whole, and the error stream is as it was. For a request it was read to its end.
    ensures answered { result ≡ 0 → WritesText (command_of words.now)
        (S.left source.old) (S.left source.new) (O.held out.old) (O.held out.new) }
    ensures quiet { result ≡ 0 → errors.new ≡ errors.old }

    // 2: exactly where the words are no command. The source is as it was, also with `gen`.
    ensures usage { (result ≡ 2) ↔ (command_of words.now ≡ None) }
    ensures unread { command_of words.now ≢ Some Command.Answer → source.new ≡ source.old }

    // 4: exactly where more bytes were taken from the source than a request may have.
    ensures taken { TakesFront (S.left source.old) (S.left source.new) result }

    // Each but 0: the line of the cause is told; with 5 and 6 the cause is the reply to the request.
    ensures refused { result ≢ 0 → TellsCause result (S.left source.old) (S.left source.new)
        (E.held errors.old) (E.held errors.new) (E.faults errors.old) (E.faults errors.new) }

    // 7: the sink has a front of the text. With 2 to 6 and 8 it is as it was.
    ensures front { result ≡ 7 → WritesFront (command_of words.now)
        (S.left source.old) (S.left source.new) (O.held out.old) (O.held out.new) }
    ensures untouched { 2 ≤ result → result ≢ 7 → out.new ≡ out.old }

    // 3 and 7: exactly where the source or the sink failed, which is once, since nothing is read or written after it.
    ensures read_faults { S.faults source.new ≡ faults_after (result == 3) (S.faults source.old) }
    ensures write_faults { O.faults out.new ≡ faults_after (result == 7) (O.faults out.old) }

    // A request that the source gives without a fault has its reply, unless memory runs out.
    ensures replied { IfSome (S.left source.old) (λ bytes.
        IsGiven (command_of words.now) bytes (S.faults source.old) (S.faults source.new) →
        (result ≡ 8) ⊎ IsReplied (reply_to bytes) result) }

    // So where its query has no refusal, and the sink does not fail, it is answered, unless memory runs out.
    ensures complete { IfSome (S.left source.old) (λ bytes.
        IsGiven (command_of words.now) bytes (S.faults source.old) (S.faults source.new) →
        HasNoRefusal bytes → ¬ Rose (O.faults out.old) (O.faults out.new) →
        (result ≡ 0) ⊎ (result ≡ 8)) }

    // A generated input is answered, unless the sink fails or memory runs out.
    ensures generated { (n : ℕ) → command_of words.now ≡ Some (Command.Generate n) →
        (result ≡ 0) ⊎ ((result ≡ 7) ⊎ (result ≡ 8)) }
    ensures generated_whole { (n : ℕ) → command_of words.now ≡ Some (Command.Generate n) →
        ¬ Rose (O.faults out.old) (O.faults out.new) → (result ≡ 0) ⊎ (result ≡ 8) }
    ensures reads_never_fall { S.faults source.old ≤ S.faults source.new }
    ensures writes_never_fall { O.faults out.old ≤ O.faults out.new }
    ensures errors_never_fall { E.faults errors.old ≤ E.faults errors.new }
{
    match run_command(alloc, words, source, out, steps) {
        Ok(()) => 0,
        Err(e) => report(errors, e),
    }
}
