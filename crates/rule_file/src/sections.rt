//! Cutting a rule file: the rule's name, and the lines of the section that is used.
ghost use Rattle.std.specs.Option.{option_copied};
ghost use Rattle.std.specs.List.{list_all};
ghost use Rattle.text_lines.specs.Blanks.{is_blank};
ghost use Rattle.std.specs.Prelude.{◌≡◌, ◌≢◌, position, IfOk, IsOk, Err};
ghost use Rattle.rule_file.specs.RuleFile.{file_of, first_word, is_name, is_name_byte, named, opens_section, rule_name, section_kind, section_lines, section_of, without_comment};
ghost use Rattle.rule_file.specs.Results.{Gives};
ghost use Rattle.basics.specs.Results.{Reads};

use crate::fault::RuleFault;
use crate::numbered_lines::NumberedLines;
use crate::text::{RuleLine, RuleText, SectionKind};
use std::alloc::{AllocError, Global};
use text_lines::{find_byte, is_blank, trim};

/// Cuts a rule file: the name of the rule, and the lines of the first table or tree, whichever
/// stands first.
///
/// The first line that isn't blank is `@RULE`, a space and the name, else the file is refused by
/// NoRuleLine. Later lines that begin with `@` open sections; a file with neither a table nor a
/// tree is refused by NoTable. NoMemory comes only where memory ran out, and last: where the
/// file has a fault, that fault is the answer.
pub fn cut(alloc: Global, text: &[u8]) -> Result<RuleText<'_>, RuleFault>
    ensures file { Gives result (file_of text.now) }
    ensures no_memory { result ≡ Err RuleFault.NoMemory → IsOk (file_of text.now) }
{
    let mut lines = NumberedLines::new(text);
    let name = find_name(&mut lines)?;
    let (kind, opened) = find_section(&mut lines)?;
    Ok(RuleText::new(name, kind, opened, take_section(alloc, &mut lines)?))
}

// The name that the first line that isn't blank gives to the rule.
fn find_name<'a>(lines: &mut NumberedLines<'a>) -> Result<&'a [u8], RuleFault>
    ensures name { Reads (λ name. (name.now, lines.new)) result (named lines.old) }
    ensures fault { result ≢ Err RuleFault.NoMemory }
{
    while let Some(line) = lines.next() {
        if !line.text().is_empty() {
            return rule_name(line.text()).ok_or(RuleFault::NoRuleLine);
        }
    }
    Err(RuleFault::NoRuleLine)
}

// Goes behind the line that opens the first table or tree.
fn find_section(lines: &mut NumberedLines) -> Result<(SectionKind, u64), RuleFault>
    ensures section { Reads
        (λ found. record { kind = found.0; opened = found.1; lines = section_lines lines.new })
        result (section_of lines.old) }
    ensures fault { result ≢ Err RuleFault.NoMemory }
{
    while let Some(line) = lines.next() {
        if let Some(kind) = section_kind(line.text()) {
            return Ok((kind, line.number()));
        }
    }
    Err(RuleFault::NoTable)
}

// The lines of a section that is open, up to the next one.
fn take_section<'a>(
    alloc: Global,
    lines: &mut NumberedLines<'a>,
) -> Result<Vec<RuleLine<'a>>, AllocError>
    ensures { IfOk result (λ taken. taken.items ≡ section_lines lines.old) }
{
    let mut taken = Vec::new(alloc);
    while let Some(line) = lines.next() {
        if opens_section(line.text()) {
            break;
        }
        let text = trim(without_comment(line.text()));
        if !text.is_empty() {
            taken.push(RuleLine::new(line.number(), text))?;
        }
    }
    Ok(taken)
}

// The name that this line gives to the rule.
fn rule_name(line: &[u8]) -> Option<&[u8]>
    ensures { option_copied result ≡ rule_name line.now }
{
    let name = line.strip_prefix(b"@RULE ")?;
    if is_name(name) { Some(name) } else { None }
}

fn is_name(name: &[u8]) -> bool
    ensures { result ≡ is_name name.now }
{
    !name.is_empty() && are_name_bytes(name)
}

fn are_name_bytes(bytes: &[u8]) -> bool
    ensures { result ≡ list_all is_name_byte bytes.now }
{
    bytes.iter().all(|b| is_name_byte(*b))
}

fn is_name_byte(b: u8) -> bool
    ensures { result ≡ is_name_byte b }
{
    33 <= b && b <= 126 && b != b':'
}

// Whether the line opens a section, and so ends the one before.
fn opens_section(line: &[u8]) -> bool
    ensures { result ≡ opens_section line.now }
{
    line.first() == Some(&b'@')
}

// The kind of the section that the line opens, of those that say what a rule does.
fn section_kind(line: &[u8]) -> Option<SectionKind>
    ensures { result ≡ section_kind line.now }
{
    let word = first_word(line);
    if word == b"@TABLE".as_slice() {
        Some(SectionKind::Table)
    } else if word == b"@TREE".as_slice() {
        Some(SectionKind::Tree)
    } else {
        None
    }
}

fn first_word(line: &[u8]) -> &[u8]
    ensures { result.now ≡ first_word line.now }
{
    match first_blank(line) {
        Some(end) => &line[..end],
        None => line,
    }
}

fn first_blank(line: &[u8]) -> Option<usize>
    ensures { result ≡ position is_blank line.now }
{
    line.iter().position(|b| is_blank(*b))
}

fn without_comment(line: &[u8]) -> &[u8]
    ensures { result.now ≡ without_comment line.now }
{
    match find_byte(line, b'#') {
        Some(end) => &line[..end],
        None => line,
    }
}
