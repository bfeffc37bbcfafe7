// A text is read as a step file.
ghost use Rattle.std.specs.Prelude.{◌≡◌, map, ◌==◌, IfOk, vec_items};
ghost use Rattle.std.specs.List.{slice_split};
ghost use Rattle.std.specs.Option.{option_map};
ghost use Rattle.steps.specs.Kinds.{kind_named};
ghost use Rattle.text.specs.Faults.{Answers, AnswersText};
ghost use Rattle.text.specs.Laws.{HasText};
ghost use Rattle.text.specs.Parsing.{step_read, line_read, with_line, lines_read, text_read};

use crate::fault::{LineFault, TextFault};
use crate::fields::entry_of;
use crate::words::{numbers, words};
use std::alloc::{AllocError, Global};
use steps::frame::{LIMIT, VERSION};
use steps::kind::EntryKind;
use steps::write::write_entry;

// The entry of a step, whose numbers are in words.
fn step(heap: Global, name: &str, words: &[&str]) -> Result<Vec<u8>, LineFault>
    ensures { Answers vec_items (step_read (kind_named name.now) (map (λ w. w.now) words.now)) result }
{
    let kind: EntryKind = name.parse()?;
    let numbers = numbers(heap, words)?;
    entry_of(heap, kind, &numbers)
}

// The entry of a line, or none where the line has no words.
fn entry(heap: Global, line: &str) -> Result<Option<Vec<u8>>, LineFault>
    ensures { Answers (option_map vec_items) (line_read line.now) result }
{
    let words = words(heap, line)?;
    let [name, others @ ..] = words.as_slice() else {
        return Ok(None);
    };
    let entry = step(heap, name, others)?;
    Ok(Some(entry))
}

// Adds the entry of a line to a file.
fn add_line(heap: Global, file: &mut Vec<u8>, line: &str) -> Result<(), LineFault>
    ensures { Answers (λ _. file.new.items) (with_line file.old.items line.now) result }
{
    let Some(entry) = entry(heap, line)? else {
        return Ok(());
    };
    write_entry(file, &entry)?;
    if file.len() > LIMIT {
        return Err(LineFault::FileTooLong);
    }
    Ok(())
}

// The lines of a text, without their ends.
fn lines(heap: Global, text: &str) -> Result<Vec<&str>, AllocError>
    ensures { IfOk result (λ v. map (λ l. l.now) v.items ≡ slice_split (λ b. b == 10) text.now) }
{
    text.split('\n').collect(heap)
}

// The step file of lines.
fn read_lines(heap: Global, lines: &[&str]) -> Result<Vec<u8>, TextFault>
    ensures file { AnswersText vec_items (lines_read (map (λ l. l.now) lines.now)) result }
    ensures has_text { IfOk result (λ v. HasText v.items) }
{
    let mut file = [VERSION].to_vec(heap)?;
    for (i, line) in lines.iter().enumerate() {
        if let Err(fault) = add_line(heap, &mut file, line) {
            return Err(TextFault { line: i + 1, fault });
        }
    }
    Ok(file)
}

// The step file that a text stands for.
pub fn from_text(heap: Global, text: &str) -> Result<Vec<u8>, TextFault>
    ensures file { AnswersText vec_items (text_read text.now) result }
    ensures has_text { IfOk result (λ v. HasText v.items) }
{
    let lines = lines(heap, text)?;
    read_lines(heap, &lines)
}
