//! The words of a command line.
ghost use Rattle.std.specs.Prelude.{◌≡◌, map, not};
ghost use Rattle.std.specs.Option.{option_map};
ghost use Rattle.top_call.specs.CommandLine.{is_plain, line_of, line_of_command};
ghost use Rattle.top_call.specs.Lines.{named_line};

/// A command line: what is asked for, with the name of the file that it is asked of.
#[derive(Clone, Copy)]
pub(crate) enum Line<'a> {
    /// `exec FILE`
    Exec(&'a str),
    /// `run IMAGE`
    Run(&'a str),
}

/// The command line of the words behind the program's name, or `None` where they are none.
pub(crate) fn read_line<'a>(words: &[&'a str]) -> Option<Line<'a>>
    ensures { option_map named_line result ≡ line_of (map (λ w. w.now) words.now) }
{
    match words {
        [command, file] => {
            if is_option(file) {
                None
            } else {
                command_line(command, file)
            }
        }
        _ => None,
    }
}

/// Whether a word begins with `-`.
fn is_option(word: &str) -> bool
    ensures { result ≡ not (is_plain word.now) }
{
    match word.as_bytes() {
        [first, ..] => *first == b'-',
        [] => false,
    }
}

/// The line of a command's name and a plain word.
fn command_line<'a>(command: &str, file: &'a str) -> Option<Line<'a>>
    ensures { option_map named_line result ≡ line_of_command command.now file.now }
{
    if command == "exec" {
        Some(Line::Exec(file))
    } else if command == "run" {
        Some(Line::Run(file))
    } else {
        None
    }
}
