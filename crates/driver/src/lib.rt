//! The top call `serve`: from the words of the command line and the bytes of the input to the status, the answer and the line of a
//! refusal.
//!
//! The words are read by `command_line` as a job with its numbers. The jobs are `check`, `cert`, `explain`, `eval`, `exec`, `compile` and `export`, on every environment, `call`, on one with arguments
//! behind it, `verify`, on one with a typing certificate behind it, `run`, on modules, and `bench`, on a text that it makes. `check` (in
//! `check.rt`) reads and accepts; `cert` (in `cert.rt`) does so by the rules that write a certificate, and gives that behind the environment's canonical text; `explain` (in `explain.rt`) does the same and answers a refusal of the check with its explanation; `eval`
//! (in `eval.rt`) goes on to main's first-order types, its value by the source's own evaluation, the data that this is, and its text.
//! `main_module.rt` lists the stages to main's module, that `exec` and `compile` share: read, check, first-order types, erasure (`erasing.rt`), the passes (`running.rt`). `exec` (in
//! `exec.rt`) goes on to that module's answer (`running.rt`) and its text; `compile` (in `object.rt`) writes its bytes. `export` (in `export.rt`) goes from the check to the signature of main's type, erasure and the
//! passes (`callable.rt`), and writes the bytes of the module for calls of main; `call` (in `call.rt`) reads between these stages the arguments that stand behind the environment (`called_main.rt`), and goes on to a call of that
//! module with them and the text of what it answers. `verify` (in `verify.rt`) reads the certificate behind the environment and goes along the certified walk with it. `run` (in `run.rt`) gives the text of the answer of the module
//! that is its input. `bench` (in `bench.rt`) does on its text what `exec` does, and writes the figures of that. After the check the caller's reports are told its facts (`facts.rt`, `reporting.rt`; by `verify` there are none), and
//! `exec`, `bench`, `call` and `run` have them told those of the run (`module_run`); where the status is 0 their lines are written.
//!
//! What `serve` promises: on status 0 the input spells an environment that is well formed, or by `explain` one that the check
//! refuses, and out takes what explains that, or `ok`, or, by `cert`, the environment's canonical text and its certificate, or, by `eval`, the text of main's value, or, by `exec`, the text of the
//! data that the run of a valid module answers, which is made of an erasure of main, or, by `compile`, that module's bytes, or, by `export`, those of the module for calls of main, or, by `call`, the
//! text of the data that a call of that module with the arguments answers (`done`). By `exec`, `bench` and `compile`: the environment is well
//! formed on each status after the check (`well`); where main's erased program evaluates to data of main's type, every long enough run of the module answers it or is exhausted, and
//! `exec` prints it or ends with a status that is neither 0 nor 15 (`values`); where main, of a first-order type, evaluates to a value, the same of that value, with bounds on memory and on steps
//! (`headline`, `bounded`, by counts `counted`, `matched`); on a plain environment that keeps the rules that its text shows, main's constructor or its module, given four turns and 1,052,672 steps (`plain`,
//! `named`). By `exec`, where main has a module, the status is one that a run shows (`finishes`). Each other status has its cause, and the line of that refusal goes to err (`refused`, `usage`,
//! `prefix`); where the line is at fault nothing is read, and the status is 2 but for want of memory (`faulty`), and no other status comes (`statuses`). Where no count of faults rises,
//! the answer up to want of memory (`judged`, `complete`, `refuses_text`, `refuses_length`). On status 0 err takes the lines of the reports (`reported`). And what is left behind (`unread`, `nothing_out`, `quiet`, `counts`, `tells`).
//! All of this holds once more by the histories of the objects, so of real streams: of the bytes that the source's reads gave in this call, up to the end (`history`, `ended`), and of those that the writes to out and err took.
//!
//! The definitions in `specs/`: `Serve` (answers, causes, and when a call is asked for what), `Promises` (the long clauses of `serve` by name), `Served` (all its clauses as one record), `ByHistory` (that record by the histories of the objects), `Lines` (statuses and lines; what
//! words ask for is a definition of `command_line`), `Texts` (what a text spells within the limits), `Judged` (what the directed rules say of an environment), `Plain` and `Answerable` (small environments that keep all
//! rules), `PlainAnswer` (what is answered on them), `SourceEnds` (how `eval` ends after the check), `SourceSays` (what its stages say), `EvaluatedSource` (its answer), `Evaluable` (where it has one), `ExecEnds` (what the
//! stages of `exec` say, and how it ends), `Executed` (its answer), `ErasureParts` (what the code of erasure says), `MainModule` (what the stages to main's module hand on), `MadeModule` (the answer of `compile`, and how it
//! ends), `CallStages` (what the stages to the module for calls say and hand on), `Exported` and `ExportSays` (the answer of `export` and how it ends, and what its stages say), `CallEnds`, `CalledMain` and `Called` (what the stages of `call` say and how it ends, what they hand on, and its answer),
//! `Headline` (what is owed to an evaluation of main), `RunFile` (the answer of `run` and its refusals), `VerifyEnds` (what the stages of `verify` say, and how it ends), `CertEnds` and `CertSays`
//! (what `cert` writes, and what its stages say), `Explained` and `ExplainSays` (the answer of `explain` where
//! the check refuses, and what its stages say), `Bench`, `Figures` and `Benched` (the lines of `bench`, and its answer), `CheckFacts` (the facts of a check),
//! `JobFacts` (those of a job). Which
//! bytes spell which environment, and what a text's first refusal is, are definitions of `dump_grammar` and `dump_reader`; which environments are well formed is one of `rule_laws` over those of `pc_rules`; what erasure and
//! the passes give is defined in `erase_rules` and `back_end`; what modules, their bytes, typings and runs are, in `wasm_core`; the certified walk and the rules that write are definitions of
//! `cert_rules`, and what a text is read as a certificate of `cert_text`; the canonical text is one of `dump_printer`; what a report's line is, in `ReportLines`.
//!
//! Below stand `kio`, `dump_reader`, `dump_printer`, `env_check`, `cert_text`, `env_cert`, `env_making`, `source_eval`, `first_order`, `erase`, `compile`, `module_run`, `explanations`, `workload`, `reports` and `command_line`; above stand the program `erasec` and the laws
//! of `job_laws`.
#![tactic(auto)]

mod bench;
mod call;
mod callable;
mod called_main;
mod cert;
mod check;
mod erasing;
mod err_line;
mod eval;
mod exec;
mod explain;
mod export;
mod facts;
mod main_module;
mod object;
mod refusal;
mod reporting;
mod run;
mod running;
mod top;
mod verify;

pub use top::serve;
