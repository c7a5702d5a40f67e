//! The words of the command line.

ghost use Rattle.std.specs.Prelude.{◌≡◌, map, string_bytes};
ghost use Rattle.tools_top.specs.ToolWords.{tool_line};

/// What the words ask for.
#[derive(Clone, Copy, Debug, PartialEq, Eq)]
pub enum Tool {
    /// A history is audited.
    Audit,
}

/// The tool that the words ask for. Each word that is not among its own is a mistake; there are none for help or the version.
pub fn tool_of(words: &[String]) -> Option<Tool>
    ensures { result ≡ tool_line (map string_bytes words.now) }
{
    match words {
        [word] if word.as_str() == "audit" => Some(Tool::Audit),
        _ => None,
    }
}
