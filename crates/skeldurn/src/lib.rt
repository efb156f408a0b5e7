// The calls for C and Rust.
#![tactic(auto)]

ghost use Rattle.std.specs.Prelude.{◌≡◌};
ghost use Rattle.rules.specs.Answer.{numbers_of};
ghost use Rattle.rules.specs.Judge.{judge_of};
ghost use Rattle.rules.specs.Walk.{first_of, next_of};
ghost use Rattle.word.specs.Word.{word_of, numbers_in};

use turns::judge;
use turns_answer::numbers;
use walk::{first, next};
use word::word;

// Judges a list: the answer in one word, from which all six numbers can be had again, and the sheet.
#[unsafe(no_mangle)]
pub extern "C" fn skeldurn_judge(table: &[u8], list: &[u8], sheet: &mut [u8]) -> u64
    ensures value { result ≡ word_of (numbers_of (judge_of table.now list.now sheet.old).answer) }
    ensures result_value { numbers_in result ≡ numbers_of (judge_of table.now list.now sheet.old).answer }
    ensures sheet_after { sheet.new ≡ (judge_of table.now list.now sheet.old).buffer }
{
    let judged = judge(table, list, sheet);
    word(numbers(judged))
}

// The smallest complete list.
#[unsafe(no_mangle)]
pub extern "C" fn skeldurn_first(table: &[u8], list: &mut [u8]) -> u64
    ensures value { result ≡ word_of (numbers_of (first_of table.now list.old).answer) }
    ensures result_value { numbers_in result ≡ numbers_of (first_of table.now list.old).answer }
    ensures list_after { list.new ≡ (first_of table.now list.old).buffer }
{
    let smallest = first(table, list);
    word(numbers(smallest))
}

// The smallest complete list above a complete one.
#[unsafe(no_mangle)]
pub extern "C" fn skeldurn_next(table: &[u8], list: &[u8], out: &mut [u8]) -> u64
    ensures value { result ≡ word_of (numbers_of (next_of table.now list.now out.old).answer) }
    ensures result_value { numbers_in result ≡ numbers_of (next_of table.now list.now out.old).answer }
    ensures out_after { out.new ≡ (next_of table.now list.now out.old).buffer }
{
    let later = next(table, list, out);
    word(numbers(later))
}
