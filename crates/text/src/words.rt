// The words of a line, and the numbers that words are.
ghost use Rattle.std.specs.Prelude.{◌≡◌, map, IfOk, vec_items};
ghost use Rattle.text.specs.Faults.{Answers};
ghost use Rattle.text.specs.Words.{uncommented, words, is_numeral, number_read, numbers_read};

use crate::fault::LineFault;
use std::alloc::{AllocError, Global};

// A comment begins with a `#` and ends with its line.
fn uncommented(line: &str) -> &str
    ensures { result.now ≡ uncommented line.now }
{
    match line.split_once('#') {
        Some((before, _)) => before,
        None => line,
    }
}

// The words of a line, between blanks of any kind.
pub(crate) fn words(heap: Global, line: &str) -> Result<Vec<&str>, AllocError>
    ensures { IfOk result (λ v. map (λ w. w.now) v.items ≡ words line.now) }
{
    uncommented(line).split_ascii_whitespace().collect(heap)
}

// Digits alone: `parse` would also take a sign.
fn is_numeral(word: &str) -> bool
    ensures { result ≡ is_numeral word.now }
{
    !word.is_empty() && word.bytes().all(|b| b.is_ascii_digit())
}

// The number that a word is.
fn number(word: &str) -> Result<u64, LineFault>
    ensures { result ≡ number_read word.now }
{
    if !is_numeral(word) {
        return Err(LineFault::NotANumber);
    }
    word.parse().or(Err(LineFault::TooBig))
}

// The numbers that words are, up to the first that is none.
pub(crate) fn numbers(heap: Global, words: &[&str]) -> Result<Vec<u64>, LineFault>
    ensures { Answers vec_items (numbers_read (map (λ w. w.now) words.now)) result }
{
    let mut numbers = Vec::new(heap);
    for word in words {
        numbers.push(number(word)?).map_err(AllocError::from)?;
    }
    Ok(numbers)
}
