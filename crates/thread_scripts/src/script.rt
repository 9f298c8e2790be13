ghost use Rattle.std.specs.Prelude.{◌≡◌, List, true};
ghost use Rattle.thread_scripts.specs.Rules.{is_script};
ghost use Rattle.thread_scripts.specs.declared.line.Line.{Line};

use crate::line::Line;
use crate::rules::are_script;
use std::alloc::Global;
use std::marker::Model;

/// A script. Contracts see the list of its lines, without empty lines and comments.
#[derive(Debug, Drop)]
pub struct Script {
    lines: Vec<Line>,
}

impl Model for Script {
    ghost Value = { List Line };

    ghost view = { λ s. s.lines.items };
}

impl Script {
    /// The script of lines that were read from a text.
    pub(crate) fn from_vec(lines: Vec<Line>) -> Script
        ensures { result ≡ lines.items }
    {
        Script { lines }
    }

    /// Whether lines that were made in code are a script: at most 1,000 of them, each jump to the place of a
    /// [`Line::Label`], at most 32,767 bytes in each byte text, only the bytes `!` to `~` in paths, and host
    /// files without `exclusive` and `nonblock`. A work may be of any length.
    pub fn accepts(lines: &[Line]) -> bool
        ensures { result ≡ is_script lines.now }
    {
        are_script(lines)
    }

    /// The script of lines that were made in code. It takes no memory. [`Script::accepts`] is the test of its
    /// condition.
    pub fn of(lines: Vec<Line>) -> Script
        requires { is_script lines.items ≡ true }
        ensures { result ≡ lines.items }
    {
        Script::from_vec(lines)
    }

    /// What the script's memory comes from.
    pub(crate) fn allocator(&self) -> Global {
        *self.lines.allocator()
    }

    /// The lines, in order.
    pub fn lines(&self) -> &[Line]
        ensures { result.now ≡ self.now }
    {
        self.lines.as_slice()
    }
}
