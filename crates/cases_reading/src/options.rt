use case_files::Line;
use compose_words::{Command, Options, Scale};
use std::alloc::Global;
use tree_base::Text;

/// A command with its options as one line, in one fixed order; four workers, the usual number, aren't told.
pub(crate) fn options_line(alloc: Global, options: &Options) -> Line {
    let mut line = Line::new(alloc);
    say_command(&mut line, &options.command);
    say_texts(&mut line, "--file", options.files.as_slice());
    say_text(&mut line, "--project-name", options.project.as_ref());
    say_text(&mut line, "--project-directory", options.directory.as_ref());
    say_texts(&mut line, "--profile", options.profiles.as_slice());
    say_texts(&mut line, "--env-file", options.env_files.as_slice());
    if options.parallel != 4 {
        say_number(&mut line, "--parallel", Some(options.parallel));
    }
    say_text(&mut line, "--socket", options.socket.as_ref());
    say_flag(&mut line, "--memory", options.in_memory);
    say_text(&mut line, "--stop-file", options.stop_file.as_ref());
    line
}

fn say_command(line: &mut Line, command: &Command) {
    match command {
        Command::Config { json, quiet } => {
            line.word("config");
            say_flag(line, "--format json", *json);
            say_flag(line, "--quiet", *quiet);
        }
        Command::Up {
            orphans,
            wait,
            wait_seconds,
            scale,
        } => {
            line.word("up");
            say_flag(line, "--remove-orphans", *orphans);
            say_flag(line, "--wait", *wait);
            say_number(line, "--wait-timeout", *wait_seconds);
            say_scales(line, scale.as_slice());
        }
        Command::Down {
            orphans,
            volumes,
            seconds,
        } => {
            line.word("down");
            say_flag(line, "--remove-orphans", *orphans);
            say_flag(line, "--volumes", *volumes);
            say_number(line, "--timeout", *seconds);
        }
        Command::Simulate { number } => say_number(line, "simulate", Some(*number)),
        Command::Wait => line.word("wait"),
        Command::Logs => line.word("logs"),
        Command::EngineSim { connections } => {
            say_number(line, "enginesim --connections", Some(*connections));
        }
    }
}

fn say_scales(line: &mut Line, scales: &[Scale]) {
    for scale in scales {
        say_scale(line, scale);
    }
}

fn say_scale(line: &mut Line, scale: &Scale) {
    line.word("--scale");
    line.word(scale.service.as_str());
    line.put("=");
    line.put_number(u64::from(scale.number));
}

fn say_flag(line: &mut Line, name: &str, given: bool) {
    if given {
        line.word(name);
    }
}

fn say_number(line: &mut Line, name: &str, number: Option<u32>) {
    if let Some(number) = number {
        line.word(name);
        line.number(u64::from(number));
    }
}

fn say_texts(line: &mut Line, name: &str, texts: &[Text]) {
    for text in texts {
        say_text(line, name, Some(text));
    }
}

fn say_text(line: &mut Line, name: &str, text: Option<&Text>) {
    if let Some(text) = text {
        line.word(name);
        line.word(text.as_str());
    }
}
