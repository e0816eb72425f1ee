//! The top call.

ghost use Rattle.std.specs.Prelude.{◌≡◌, ◌≢◌, ◌⊎◌, ◌≤◌, ℕ, List, [], ◌∷◌, Contains, IfErr, IfOk, OnOk, map, None, Some};
ghost use Rattle.std.specs.Io.KnownBytes.{Appends};
ghost use Rattle.kio.specs.Known.{StillTells};
ghost use Rattle.kio.specs.Histories.{MetEnd, given_since};
ghost use Rattle.calculus_rules.specs.FirstOrder.{Data};
ghost use Rattle.lambda_box.specs.ClosureEvaluation.{Counts};
ghost use Rattle.dump_reader.specs.declared.environment.RawEnv.{RawEnv};
ghost use Rattle.command_line.specs.Line.{IsInRange, request_of, words_of};
ghost use Rattle.command_line.specs.declared.line.Request.{Request as Asked};
ghost use Rattle.command_line.specs.declared.job.Job.TheVariants.{Bench};
ghost use Rattle.driver.specs.JobFacts.{CallIsTold, JobIsTold};
ghost use Rattle.driver.specs.ReportLines.{lines};
ghost use Rattle.driver.specs.Takes.{TakesLine, TakesPrefix};
ghost use Rattle.driver.specs.Lines.{status_of, line_of};
ghost use Rattle.driver.specs.Executed.{AnswersData, HasErasedData};
ghost use Rattle.driver.specs.Headline.{ServesValue, EvaluatesErased, GivesErased, HasMatches, HasValue, IsBoundedBy, IsCountedBy, TakesMatches};
ghost use Rattle.driver.specs.Serve.{HasAnswer, AsksModule, ConcludesOn, InputSays, JobSays, ReadSays, ReadsNothing, RequestSays, Says};
ghost use Rattle.driver.specs.Promises.{AnswersPlain, AnswersWhereItCan, EndsAsJudged, EndsAsLength, EndsAsRun, EndsAsText, IsWellWhereLate, NamesPlain, ShowsCause, TellsReports};
ghost use Rattle.driver.specs.Served.{ServedOn};
ghost use Rattle.driver.specs.ByHistory.{EndSays, ReadsToEnd, ServedByHistory, by_history};

use crate::bench::{bench, made_text};
use crate::call::call;
use crate::cert::cert;
use crate::check::check;
use crate::err_line::write_line;
use crate::eval::eval;
use crate::exec::exec;
use crate::explain::explain;
use crate::export::export;
use crate::object::object;
use crate::refusal::{Refusal, status};
use crate::reporting::write_lines;
use crate::run::run;
use crate::verify::verify;
use command_line::{Job, LineFault, Request, read_line};
use kio::{ReadAll, Sink, Source, read_all, write_all};
use reports::Report;
use std::alloc::Global;

/// The most bytes of an input.
const INPUT_BYTES: usize = 16_777_216;

/// The whole input, within the limit.
fn read_input<S: Source>(alloc: Global, src: &mut S) -> Result<Vec<u8>, Refusal>
    ensures says { ReadSays (λ v. v.items) result (S.left src.old) (S.faults src.old) (S.faults src.new) }
    ensures history { ReadSays (λ v. v.items) result (Some (given_since (S.given src.old) (S.given src.new))) (S.faults src.old) (S.faults src.new) }
    ensures ended { OnOk result (MetEnd (S.given src.old) (S.given src.new)) }
    ensures later { S.faults src.old ≤ S.faults src.new }
    ensures tells { StillTells (S.left src.old) (S.left src.new) }
{
    match read_all(alloc, src, INPUT_BYTES) {
        Ok(bytes) => Ok(bytes),
        Err(ReadAll::Fault) => Err(Refusal::ReadFault),
        Err(ReadAll::TooLong) => Err(Refusal::InputBytes),
        Err(ReadAll::Memory) => Err(Refusal::Memory),
    }
}

/// The bytes that a job works on: the whole input; by `bench` the text of the request's number, and then nothing is read.
fn input_of<S: Source>(alloc: Global, request: Request, src: &mut S) -> Result<Vec<u8>, Refusal>
    ensures says { InputSays (λ v. v.items) result request (S.left src.old) (S.faults src.old) (S.faults src.new) }
    ensures history { InputSays (λ v. v.items) result request (Some (given_since (S.given src.old) (S.given src.new))) (S.faults src.old) (S.faults src.new) }
    ensures ended { request.job ≢ Bench → OnOk result (MetEnd (S.given src.old) (S.given src.new)) }
    ensures unread { request.job ≡ Bench → src.new ≡ src.old }
    ensures later { S.faults src.old ≤ S.faults src.new }
    ensures tells { StillTells (S.left src.old) (S.left src.new) }
{
    match request.job {
        Job::Bench => made_text(alloc, request.size),
        Job::Exec | Job::Check | Job::Eval | Job::Run => read_input(alloc, src),
        Job::Compile | Job::Explain | Job::Export => read_input(alloc, src),
        Job::Call | Job::Verify | Job::Cert => read_input(alloc, src),
    }
}

/// The text of the answer of a job on its bytes. Where there is one, each report is told the facts of the job: those of its check, and then those of its run. `verify` has none.
fn answer_on<R: Report>(
    alloc: Global,
    request: Request,
    bytes: &[u8],
    reports: &mut Vec<R>,
) -> Result<Vec<u8>, Refusal>
    requires range { IsInRange request }
    ensures says { JobSays request.job request (λ v. v.items) result bytes.now }
    ensures told { OnOk result (JobIsTold R.shown request.job request bytes.now reports.old.items reports.new.items) }
{
    match request.job {
        Job::Exec => exec(alloc, request, bytes, reports),
        Job::Check => check(alloc, request, bytes, reports),
        Job::Eval => eval(alloc, request, bytes, reports),
        Job::Run => run(alloc, request, bytes, reports),
        Job::Compile => object(alloc, request, bytes, reports),
        Job::Bench => bench(alloc, request, bytes, reports),
        Job::Explain => explain(alloc, request, bytes, reports),
        Job::Export => export(alloc, request, bytes, reports),
        Job::Call => call(alloc, request, bytes, reports),
        Job::Verify => verify(alloc, request, bytes),
        Job::Cert => cert(alloc, request, bytes, reports),
    }
}

/// What the words ask for.
fn request_from(alloc: Global, words: &Vec<String>) -> Result<Request, Refusal>
    ensures reads { IfOk result (λ q. request_of (words_of words.now) ≡ Some q) }
    ensures in_range { IfOk result IsInRange }
    ensures says { IfErr result (λ r. RequestSays r (words_of words.now)) }
{
    match read_line(alloc, words) {
        Ok(request) => Ok(request),
        Err(LineFault::Usage) => Err(Refusal::Usage),
        Err(LineFault::Memory) => Err(Refusal::Memory),
    }
}

/// The text of the answer of the job that the words ask for. Where there is one, each report is told the facts of the job.
fn answer<S: Source, R: Report>(
    alloc: Global,
    words: &Vec<String>,
    src: &mut S,
    reports: &mut Vec<R>,
) -> Result<Vec<u8>, Refusal>
    ensures says { Says (λ v. v.items) result (words_of words.now) (S.left src.old) (S.faults src.old) (S.faults src.new) }
    ensures told { OnOk result (CallIsTold R.shown (words_of words.now) (S.left src.old) reports.old.items reports.new.items) }
    ensures history { Says (λ v. v.items) result (words_of words.now) (Some (given_since (S.given src.old) (S.given src.new))) (S.faults src.old) (S.faults src.new) }
    ensures told_history { OnOk result (CallIsTold R.shown (words_of words.now) (Some (given_since (S.given src.old) (S.given src.new))) reports.old.items reports.new.items) }
    ensures ended { EndSays result (words_of words.now) (S.given src.old) (S.given src.new) }
    ensures unread { ReadsNothing (words_of words.now) → src.new ≡ src.old }
    ensures later { S.faults src.old ≤ S.faults src.new }
    ensures tells { StillTells (S.left src.old) (S.left src.new) }
{
    let request = request_from(alloc, words)?;
    let bytes = input_of(alloc, request, src)?;
    answer_on(alloc, request, bytes.as_slice(), reports)
}

/// Writes the refusal's line, and gives its status.
fn refuse<E: Sink>(err: &mut E, refusal: Refusal) -> u8
    ensures status { result ≡ status_of refusal }
    ensures line { TakesLine (E.taken err.old) (E.taken err.new) (E.faults err.old) (E.faults err.new) (line_of refusal) }
    ensures history { TakesLine (Some (E.received err.old)) (Some (E.received err.new)) (E.faults err.old) (E.faults err.new) (line_of refusal) }
    ensures tells { StillTells (E.taken err.old) (E.taken err.new) }
{
    let _ = write_line(err, &refusal);
    status(&refusal)
}

/// Writes the text of the answer to out, and then the lines of the reports to err; or the refusal's line to err. Gives the status, and drops the reports.
#[tactic(auto, using(crate::proofs::PartByPart::tells_same))]
fn conclude<K: Sink, E: Sink>(
    out: &mut K,
    err: &mut E,
    answered: Result<Vec<u8>, Refusal>,
    reports: Vec<Box<dyn Report>>,
) -> u8
    ensures concludes { ConcludesOn (λ v. v.items) answered (lines (map (λ b. shown b) reports.items)) result
        K.taken K.faults out.old out.new E.taken E.faults err.old err.new }
    ensures history { ConcludesOn (λ v. v.items) answered (lines (map (λ b. shown b) reports.items)) result
        (by_history K.received) K.faults out.old out.new (by_history E.received) E.faults err.old err.new }
    ensures tells { StillTells (K.taken out.old) (K.taken out.new) × StillTells (E.taken err.old) (E.taken err.new) }
    ensures counts { (K.faults out.old ≤ K.faults out.new) × (E.faults err.old ≤ E.faults err.new) }
{
    match answered {
        Ok(text) => match write_all(out, text.as_slice()) {
            Ok(()) => {
                let _ = write_lines(err, reports.as_slice());
                0
            }
            Err(_) => refuse(err, Refusal::WriteFault),
        },
        Err(refusal) => refuse(err, refusal),
    }
}

/// What `serve` does, with all that it promises in one record.
fn serve_whole<S: Source, K: Sink, E: Sink>(
    alloc: Global,
    words: &Vec<String>,
    src: &mut S,
    out: &mut K,
    err: &mut E,
    mut reports: Vec<Box<dyn Report>>,
) -> u8
    ensures served { ServedOn result (words_of words.now) (map (λ b. shown b) reports.items) S.left S.faults src.old src.new K.taken K.faults out.old out.new E.taken E.faults err.old err.new }
    ensures history { ServedByHistory result (words_of words.now) (map (λ b. shown b) reports.items) S.given S.faults src.old src.new
        K.received K.faults out.old out.new E.received E.faults err.old err.new }
    ensures ended { ReadsToEnd result (words_of words.now) (S.given src.old) (S.given src.new) }
{
    let answered = answer(alloc, words, src, &mut reports);
    conclude(out, err, answered, reports)
}

/// Does the job that the words after the program's name ask for, and answers the program's status.
///
/// The words are one simple command of `clap`: JOB and the options `--turns`, `--pages`, `--steps` and `--size`, each a number in its range with a default. The input is the text of
/// an environment, by `call` with arguments and by `verify` with a typing certificate behind it, by `run` the bytes of a module. `check` accepts an environment only where every declaration and main have a derivation by the typing rules, and writes `ok` with
/// LF to `out`. `explain` does the same, and where the environment isn't accepted it answers the line of that refusal, its place and what the rules keep of it.
/// `eval` accepts it so, finds the first-order types of main's type, evaluates main by the source's own evaluation, and writes the text of the data that the value is, with LF.
/// `exec` accepts it so and finds these types, erases main, makes a module of that, which is encoded, decoded, validated and run, and writes the text of the data that it answers, with LF.
/// `compile` does the same up to the module, and writes its bytes. `export` accepts it so, finds the signature of main's type, which are the first-order types of each argument and of the answer,
/// and writes the bytes of the module for calls of main. `bench` reads nothing: it makes the text of `--size`, does with it what `exec` does, and writes five lines, the
/// declarations, the module's bytes, the run's steps and pages, and the answer.
/// `cert` accepts it as `check` does, and writes its canonical text and the certificate that the rules write while they check, each with LF.
/// `verify` goes along the certified walk of an environment, with the certificate behind it, and writes `ok` with LF where that is accepted, so only where every declaration and main have a derivation by the typing rules.
/// `run` decodes, validates and runs a module, and writes the data that it answers by the numbers of constructors, with LF.
///
/// Statuses: 0 done; 1 want of memory; 2 the line is at fault, and then nothing is read; 3 a read fault; 4 a write fault; 5 the text's first refusal is a syntax fault; 6 its first refusal is
/// a form that is known and not read; 7 a limit is passed: of the text, of the input's 16,777,216 bytes, of depth, types, arguments or nodes, of a program or its module, or by `run` of pages
/// or of a table; 8 the directed rules, or by `verify` the walk, have no end within the turns; 9 a rule is broken; 10 main's type has no first-order set, or by `export` no signature, or by `exec`, `bench`, `compile` and
/// `export` a constant without a body is reached; 11 memory is
/// exhausted; 12 the steps are spent; 13 the bytes spell no module; 14 the module is invalid; 15 the run trapped, an entry is missing, a segment passes the table, the result is no
/// data, or by `eval` main has no value or its value is no data of its type; 16 by `call` an argument is of another type; 17 by `verify` the walk is refused at an item. By `explain` 8, 9 and the limit of depth behind the text never come.
///
/// Each report is told the facts of the check, by `cert` of the one that writes, before a run: a declaration each, a constant without a body each, a use of a rule each, up to the end of main's check; and by `exec`, `bench` and
/// `run` those of the run: each step with its class, each grow of memory that wasn't refused. `run` and `verify` have no check, and by `explain` there are none where the check doesn't accept. On status 0 `err` then takes a line `report NAME COUNT` for each, in order; the
/// reports are dropped at every status.
///
/// Of a source that tells nothing before it is read, as standard input, `history` says all of this: its input is the bytes that its reads give in this call, the last of which meets the end (`ended`).
///
/// A refusal writes one line to `err`, which takes no memory; a fault on `err` changes no status. Nothing goes to `out` before
/// the whole answer is there, so a refusal other than a write fault leaves it as it was.
pub fn serve<S: Source, K: Sink, E: Sink>(
    alloc: Global,
    words: &Vec<String>,
    src: &mut S,
    out: &mut K,
    err: &mut E,
    reports: Vec<Box<dyn Report>>,
) -> u8
    // The answer: the text spells an environment that is well formed, and out takes `ok`, by `verify` too, where the certificate behind it is accepted, by `cert` its canonical text and its
    // certificate, the text of main's value, or of what main's module answers, or the bytes of that module or of the one for calls; by `run` the text of what the
    // module of the input answers; by `explain` the check may refuse it, and then out takes what explains that.
    ensures done { result ≡ 0 → (text : List ℕ) × HasAnswer (words_of words.now) (S.left src.old) text × Appends (K.taken out.old) (K.taken out.new) text }
    ensures statuses { Contains (0 ∷ 1 ∷ 2 ∷ 3 ∷ 4 ∷ 5 ∷ 6 ∷ 7 ∷ 8 ∷ 9 ∷ 10 ∷ 11 ∷ 12 ∷ 13 ∷ 14 ∷ 15 ∷ 16 ∷ 17 ∷ []) result }

    // Each refusal has its cause, and its line goes to err.
    ensures refused { ShowsCause result (words_of words.now) S.left S.faults src.old src.new K.faults out.old out.new E.taken E.faults err.old err.new }
    ensures usage { result ≡ 2 → request_of (words_of words.now) ≡ None }
    ensures faulty { request_of (words_of words.now) ≡ None → (src.new ≡ src.old) × ((result ≡ 2) ⊎ (result ≡ 1)) }
    ensures prefix { result ≡ 4 → (text : List ℕ) × HasAnswer (words_of words.now) (S.left src.old) text × TakesPrefix (K.taken out.old) (K.taken out.new) text }

    // Where the source's count doesn't rise, nor out's where something is written, and the rules pass no limit, want of memory is the only other answer.
    ensures judged { EndsAsJudged result (words_of words.now) (S.left src.old) (S.faults src.old) (S.faults src.new) (K.faults out.old) (K.faults out.new) }
    ensures complete { AnswersWhereItCan result (words_of words.now) (S.left src.old) (S.faults src.old) (S.faults src.new) (K.faults out.old) (K.faults out.new) }
    ensures refuses_text { EndsAsText result (words_of words.now) (S.left src.old) (S.faults src.old) (S.faults src.new) }
    ensures refuses_length { EndsAsLength result (words_of words.now) (S.left src.old) (S.faults src.old) (S.faults src.new) }
    // By `exec`, `bench` and `compile`, where main's erased program evaluates to data of main's type: every long enough run of the module answers that data or is exhausted; `exec` writes the
    // data's text, and `bench` that behind the figures, or ends with a status that is neither 0 nor 15, and `compile` writes that module, or has another status.
    ensures values { (q : Asked) (e : RawEnv) (ds : Data) (n k : ℕ) → AsksModule q e (words_of words.now) (S.left src.old) →
        HasErasedData q.turns e ds n k → AnswersData q e ds result (K.taken out.old) (K.taken out.new) }
    // By these jobs (the text that `bench` makes is never plain), on a plain environment that keeps all rules, given four turns and 1,052,672 steps: the name of main's constructor, or its module, and 0 or 1 where out's
    // count doesn't rise.
    ensures plain { AnswersPlain result (words_of words.now) (S.left src.old) (S.faults src.old) (S.faults src.new) (K.faults out.old) (K.faults out.new) (K.taken out.old) (K.taken out.new) }
    // So by `exec` on status 0 on each plain environment.
    ensures named { NamesPlain result (words_of words.now) (S.left src.old) (K.taken out.old) (K.taken out.new) }
    // By `exec` and `bench`, where main has a module, and by `call`, where it has one for calls and the arguments are whole: an answer or want of memory, or what the run shows.
    ensures finishes { EndsAsRun result (words_of words.now) (S.left src.old) (S.faults src.old) (S.faults src.new) (K.faults out.old) (K.faults out.new) }
    // By `exec`, `bench`, `compile`, `export` and `call`, on each status that comes after the check the environment is well formed.
    ensures well { IsWellWhereLate result (words_of words.now) (S.left src.old) }
    // The headline: where main, of a first-order type, evaluates to a value, every long enough run of the module that `exec` and `bench` run or `compile` writes answers it or is exhausted, and
    // `exec` writes that value's text, `bench` that behind the figures, or shows a cause; with the bounds on memory and on steps, and at least as many steps as matches.
    ensures headline { (q : Asked) (e : RawEnv) (n : ℕ) → AsksModule q e (words_of words.now) (S.left src.old) →
        (h : HasValue q.turns e n) → ServesValue q e n result h (K.taken out.old) (K.taken out.new) }
    ensures bounded { (q : Asked) (e : RawEnv) (n : ℕ) → AsksModule q e (words_of words.now) (S.left src.old) → (h : EvaluatesErased q.turns e n) → IsBoundedBy q e n h result }
    // And within the bounds by the counts of evaluation with environments, which don't grow with the values that evaluation by substitution goes through again.
    ensures counted { (q : Asked) (e : RawEnv) (c : Counts) → AsksModule q e (words_of words.now) (S.left src.old) → (h : GivesErased q.turns e c) → IsCountedBy q e c h result }
    ensures matched { (q : Asked) (e : RawEnv) (matches : ℕ) → AsksModule q e (words_of words.now) (S.left src.old) → HasMatches q.turns e matches → TakesMatches q e matches result }

    // The reports: on status 0 err takes the line of each, in order, with its count at entry and the number of facts of the check and of the run that it wants. But for `quiet`, no other clause knows of them.
    ensures reported { TellsReports result (words_of words.now) (S.left src.old) (map (λ b. shown b) reports.items) (E.taken err.old) (E.taken err.new) (E.faults err.old) (E.faults err.new) }

    // What is left behind.
    ensures unread { ReadsNothing (words_of words.now) → src.new ≡ src.old }
    ensures nothing_out { result ≢ 0 → result ≢ 4 → out.new ≡ out.old }
    ensures quiet { result ≡ 0 → reports.items ≡ [] → err.new ≡ err.old }
    // And all of this by the histories of the objects, so of real streams too: where the clauses above say what the source tells, it is what its reads gave in this call; what out and err
    // take is what their writes took.
    ensures history { ServedByHistory result (words_of words.now) (map (λ b. shown b) reports.items) S.given S.faults src.old src.new
        K.received K.faults out.old out.new E.received E.faults err.old err.new }
    // These bytes are the whole input: a read met its end, on each status but 1 and 3, unless they pass the limit.
    ensures ended { ReadsToEnd result (words_of words.now) (S.given src.old) (S.given src.new) }
    // No count falls, and each object tells its bytes where it did.
    ensures counts { (S.faults src.old ≤ S.faults src.new) × (K.faults out.old ≤ K.faults out.new) × (E.faults err.old ≤ E.faults err.new) }
    ensures tells { StillTells (S.left src.old) (S.left src.new) × StillTells (K.taken out.old) (K.taken out.new) × StillTells (E.taken err.old) (E.taken err.new) }
{
    serve_whole(alloc, words, src, out, err, reports)
}
