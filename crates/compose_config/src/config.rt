ghost use Rattle.std.specs.Prelude.{◌≡◌, ◌⊎◌, ◌<◌, ◌^◌, ◌↔◌, Err, None, Some, IfErr, IfOk, IfSome, IsTrue, length};
ghost use Rattle.asked_project.specs.Asking.{command_of, options_asked};
ghost use Rattle.asked_project.specs.Meaning.{IsFailedRead, meaning};
ghost use Rattle.compose_config.specs.Commands.{ForProject, GrewByPrefix, IfLoads, IsConfigOrRefused, IsOfConfig, IsReadFault, OnlyOutsideFails, PrintsPage, is_json, is_quiet, page_as, page_asked, page_for};
ghost use Rattle.compose_words.specs.Reading.{options_of};
ghost use Rattle.loaded_files.specs.declared.LoadRefusal.{LoadRefusal};
ghost use Rattle.outside_files.specs.Counts.{Rose};
ghost use Rattle.outside_files.specs.Sinks.{GrewBy};
ghost use Rattle.typed_project.specs.DistinctNames.{IsKeyed};
ghost use Rattle.refusals.specs.Origins.{IsOfLoading, is_of_words};
ghost use Rattle.refusals.specs.Statuses.{status_of};
ghost use Rattle.refusals.specs.declared.Part.{Part};
ghost use Rattle.refusals.specs.declared.Refusal.{Refusal};
ghost use Rattle.refusals.specs.Refused.{IsRefusal};
ghost use Rattle.refusals.specs.Saying.{IsSaid, IsSaidIfAny, SaysRefusal};
ghost use Rattle.refusals.specs.Went.{ReadsEnd};

use asked_project::{Asked, Command, project_asked};
use outside_files::{Files, Sink, write_all};
use project_pages::{page, page_json};
use refusals::{Part, Refusal, say_if_any, status_of};
use std::alloc::Global;
use tree_base::{Env, List, Memory, Text};
use typed_project::Project;

/// What came of a call of `config`: the exit status, and what the call is refused with, None exactly at status 0.
#[derive(Drop)]
pub struct ConfigEnd {
    pub status: u8,
    pub refusal: Option<Refusal>,
}

/// Prints the project that the words of the command line ask for, and always returns.
///
/// The words have to be those of `config`, or of no command. The Compose files are those of `-f`, merged in their
/// order, or else the default one of the project directory; their scalars take the values of the variables `env` and
/// of env files. The page of their project, or its JSON with `--format json`, is written to `out`, and
/// nothing of it with `--quiet`; the line of a refusal
/// is written to `err`.
pub fn config_run<F: Files, O: Sink, G: Sink>(
    alloc: Global,
    words: &List<Text>,
    env: &Env,
    cwd: &Text,
    files: &mut F,
    out: &mut O,
    err: &mut G,
) -> ConfigEnd
    requires count { length words.now < 2 ^ 32 }
    requires command { IsConfigOrRefused (options_of words.now) }

    // Where the words are refused, or the files are told, what is meant to be refused is what the call is refused with.
    ensures words { IfErr (options_asked words.now env.now) (λ refusal.
        IsSaid refusal result.refusal) }
    ensures words_only { (refusal : _) → IsTrue (is_of_words refusal)
        → result.refusal ≡ Some refusal
        → options_asked words.now env.now ≡ Err refusal }
    ensures loading { IfSome (F.told files.old) (λ contents.
        IfErr (meaning words.now env.now cwd.now contents) (λ refusal.
        IsRefusal refusal result.refusal)) }

    // No other refusals than these come, and a fault is told only where something outside failed.
    ensures kind { IsOfConfig result.refusal }
    ensures read_fault { (path : _)
        → result.refusal ≡ Some (Refusal.Load (LoadRefusal.ReadFault path))
        → IsFailedRead words.now env.now cwd.now (F.told files.old)
        (F.faults files.old) (F.faults files.new) path }
    ensures output_fault { result.refusal ≡ Some (Refusal.Outside Part.Out)
        → Rose (O.faults out.old) (O.faults out.new) }

    // Where no read had failed before, none fails but the last, and that is what the call is then refused with, by its path.
    ensures reads { ReadsEnd (F.reads files.old) (F.reads files.new) result.refusal }

    // At status 0 the page of the project was written whole, or nothing with `--quiet`; and else nothing, or a prefix
    // of it.
    ensures page { result.status ≡ 0
        → ForProject words.now env.now cwd.now (F.told files.old) (λ loaded.
        GrewBy (O.written out.old)
        (page_asked (command_of words.now env.now) loaded.project) (O.written out.new)) }
    ensures prefix { (O.written out.new ≡ O.written out.old)
        ⊎ ForProject words.now env.now cwd.now (F.told files.old) (λ loaded.
        GrewByPrefix (O.written out.old) (O.written out.new)
        (page_asked (command_of words.now env.now) loaded.project)) }
    ensures quiet { IsOfLoading result.refusal → O.written out.new ≡ O.written out.old }

    // A project that loading gives is printed, unless memory is wanted or something outside fails.
    ensures complete { IfLoads words.now env.now cwd.now (F.told files.old) (OnlyOutsideFails
        (IsReadFault words.now env.now cwd.now (F.told files.old)
        (F.faults files.old) (F.faults files.new))
        (O.faults out.old) (O.faults out.new) result.refusal) }

    // The status is that of the refusal, whose line is written to `err`.
    ensures status { result.status ≡ status_of result.refusal }
    ensures none { (result.refusal ≡ None) ↔ (result.status ≡ 0) }
    ensures line { SaysRefusal result.refusal (G.written err.old) (G.written err.new)
        (G.faults err.old) (G.faults err.new) }
    ensures kept { F.told files.new ≡ F.told files.old }
{
    match project_asked(alloc, words, env, cwd, files) {
        Ok(asked) => print_asked(alloc, &asked, out, err),
        Err(refusal) => ended(alloc, Some(refusal), err),
    }
}

/// Ends a call: writes the line of its refusal, if any.
fn ended<G: Sink>(alloc: Global, refusal: Option<Refusal>, err: &mut G) -> ConfigEnd
    ensures refusal { IsSaidIfAny refusal result.refusal }
    ensures status { result.status ≡ status_of result.refusal }
    ensures none { (result.refusal ≡ None) ↔ (result.status ≡ 0) }
    ensures line { SaysRefusal result.refusal (G.written err.old) (G.written err.new)
        (G.faults err.old) (G.faults err.new) }
{
    let refusal = say_if_any(alloc, refusal, err);
    ConfigEnd {
        status: status_of(&refusal),
        refusal,
    }
}

/// Prints what a call is asked for: the page of the project, or nothing with `--quiet`. The line of a refusal, a
/// fault of the output or a want of memory, is written to `err`.
pub fn print_asked<O: Sink, G: Sink>(
    alloc: Global,
    asked: &Asked,
    out: &mut O,
    err: &mut G,
) -> ConfigEnd
    requires keyed { IsKeyed asked.now.loaded.project }
    ensures printed { PrintsPage (page_for asked.now.options.command asked.now.loaded.project)
        result.refusal
        (O.written out.old) (O.written out.new) (O.faults out.old) (O.faults out.new) }
    ensures status { result.status ≡ status_of result.refusal }
    ensures none { (result.refusal ≡ None) ↔ (result.status ≡ 0) }
    ensures line { SaysRefusal result.refusal (G.written err.old) (G.written err.new)
        (G.faults err.old) (G.faults err.new) }
{
    let refusal = write_asked(alloc, asked, out);
    ended(alloc, refusal, err)
}

/// Writes what a command prints of a project.
fn write_asked<O: Sink>(alloc: Global, asked: &Asked, out: &mut O) -> Option<Refusal>
    requires keyed { IsKeyed asked.now.loaded.project }
    ensures { PrintsPage (page_for asked.now.options.command asked.now.loaded.project) result
        (O.written out.old) (O.written out.new) (O.faults out.old) (O.faults out.new) }
{
    if is_quiet(&asked.options.command) {
        None
    } else {
        write_page(alloc, &asked.options.command, &asked.loaded.project, out)
    }
}

/// Whether a command prints nothing. No memory.
fn is_quiet(command: &Command) -> bool
    ensures { result ≡ is_quiet command.now }
{
    match command {
        Command::Config { quiet, .. } => *quiet,
        Command::Up { .. } => false,
        Command::Down { .. } => false,
        Command::Simulate { .. } => false,
        Command::Wait => false,
        Command::Logs => false,
        Command::EngineSim { .. } => false,
    }
}

/// Whether a command prints JSON. No memory.
fn is_json(command: &Command) -> bool
    ensures { result ≡ is_json command.now }
{
    match command {
        Command::Config { json, .. } => *json,
        Command::Up { .. } => false,
        Command::Down { .. } => false,
        Command::Simulate { .. } => false,
        Command::Wait => false,
        Command::Logs => false,
        Command::EngineSim { .. } => false,
    }
}

/// Writes the page of a project as a command prints it.
fn write_page<O: Sink>(
    alloc: Global,
    command: &Command,
    project: &Project,
    out: &mut O,
) -> Option<Refusal>
    requires keyed { IsKeyed project.now }
    ensures { PrintsPage (page_as command.now project.now) result
        (O.written out.old) (O.written out.new) (O.faults out.old) (O.faults out.new) }
{
    let Ok(page) = page_as(alloc, command, project) else {
        return Some(Refusal::Memory);
    };
    if write_all(out, page.as_str().as_bytes()) {
        None
    } else {
        Some(Refusal::Outside(Part::Out))
    }
}

/// The page of a project as a command prints it.
fn page_as(alloc: Global, command: &Command, project: &Project) -> Result<Text, Memory>
    requires keyed { IsKeyed project.now }
    ensures { IfOk result (λ page. page ≡ page_as command.now project.now) }
{
    if is_json(command) {
        page_json(alloc, project)
    } else {
        page(alloc, project)
    }
}
