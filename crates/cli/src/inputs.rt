//! Texts that are read for a command: the record of an import, or a member's new key.

ghost use Rattle.std.specs.Prelude.{◌≡◌, ◌≢◌, codes, string_bytes};
ghost use Rattle.std.specs.Str.{IsUtf8};
ghost use Rattle.cli.specs.internal.Inputs.{HasTextOf, without_line_end};

use club_requests::Command;

// Replaces the key `-` by the text that was read. A text that is not UTF-8 is no key and leaves it.
fn give_key(key: &mut String, text: Vec<u8>)
    ensures read { string_bytes key.old ≡ codes "-" → IsUtf8 text.items → string_bytes key.new ≡ text.items }
    ensures unreadable { ¬ (IsUtf8 text.items) → key.new ≡ key.old }
    ensures other { string_bytes key.old ≢ codes "-" → key.new ≡ key.old }
{
    if key.as_str() != "-" {
        return;
    }
    if let Ok(given) = String::from_utf8(text) {
        *key = given;
    }
}

/// Sets the text that was read for a command: the record of an import, or the new key that the command line gives as
/// `-`. Does nothing for another command.
pub fn give_text(command: &mut Command, text: Vec<u8>)
    ensures { HasTextOf text command.old command.new }
{
    match command {
        Command::Import(given) => given.text = text,
        Command::NewKey(given) => give_key(&mut given.key, text),
        _ => {}
    }
}

/// Removes one line end, LF or CR LF, at the end of a text.
pub fn strip_line_end(text: &mut Vec<u8>)
    ensures { text.new.items ≡ without_line_end text.old.items }
{
    let kept = if text.ends_with(&[b'\r', b'\n']) {
        text.len() - 2
    } else if text.ends_with(&[b'\n']) {
        text.len() - 1
    } else {
        text.len()
    };
    text.truncate(kept);
}
