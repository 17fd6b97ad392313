// How an answer leaves: its number, and what it changes of the lent bytes and words, on success only. A refusal is a reason, or any number.
ghost use Rattle.std.specs.Prelude.{◌≡◌, ℕ, ◌+◌, ◌<◌, length, Ok};
ghost use Rattle.std.specs.Result.{is_ok, result_unwrap_or};
ghost use Rattle.base.specs.Search.{pick};
ghost use Rattle.table.specs.Table.{empty_table};
ghost use Rattle.table_bytes.specs.Layout.{bytes_of_table};
ghost use Rattle.mem.specs.Mem.{table_in, memory_size};
ghost use Rattle.calls.specs.Answers.{told_by, no_handle};
ghost use Rattle.edge_words.specs.Words.{handle_words};
ghost use Rattle.edge_ends.specs.Ends.{told_words_by, listed_words_by, taken_words_by};

use calls::refusals::{Refusal, told};
use edge_words::results::{put_handle, put_metadata, put_next};
use mem::write_back;
use sefs::Metadata;
use table::Handle;
use table_bytes::put_empty;

// A refusal as C has it. It writes nothing.
pub fn refusal<E: Refusal>(refused: E) -> u32
    ensures { result ≡ E.number_of refused }
{
    u32::from(refused.told())
}

pub fn number<E: Refusal>(r: Result<(), E>) -> u32
    ensures { result ≡ told_by E.number_of r }
{
    u32::from(told(r))
}

// ---- the table: memory's is written back where the call was done

pub fn end_after<E: Refusal>(table: &mut [u8], mem: &[u8], r: Result<(), E>) -> u32
    requires { (length table.old ≡ 4402) × (length mem.now ≡ memory_size) }
    ensures { (result ≡ told_by E.number_of r) × (table.new ≡ pick (is_ok r) (bytes_of_table (table_in mem.now)) table.old) }
{
    if r.is_ok() {
        write_back(table, mem);
    }
    number(r)
}

// The same for format and open, which leave the empty table.
pub fn end_fresh<E: Refusal>(table: &mut [u8], r: Result<(), E>) -> u32
    requires { length table.old ≡ 4402 }
    ensures { (result ≡ told_by E.number_of r) × (table.new ≡ pick (is_ok r) (bytes_of_table empty_table) table.old) }
{
    match r {
        Ok(()) => {
            put_empty(table);
            0
        }
        Err(e) => refusal(e),
    }
}

pub fn end_held<E: Refusal>(
    table: &mut [u8],
    out: &mut [u64],
    mem: &[u8],
    r: Result<Handle, E>,
) -> u32
    requires { (length table.old ≡ 4402) × ((length out.old ≡ 2) × (length mem.now ≡ memory_size)) }
    ensures value { (result ≡ told_by E.number_of r) × (table.new ≡ pick (is_ok r) (bytes_of_table (table_in mem.now)) table.old) }
    ensures out_after { out.new ≡ pick (is_ok r) (handle_words (result_unwrap_or r no_handle)) out.old }
{
    match r {
        Ok(handle) => {
            put_handle(out, handle);
            write_back(table, mem);
            0
        }
        Err(e) => refusal(e),
    }
}

// ---- results that are words

pub fn end_told<E: Refusal>(out: &mut [u64], r: Result<Metadata, E>) -> u32
    requires { length out.old ≡ 14 }
    ensures { (result ≡ told_by E.number_of r) × (out.new ≡ told_words_by out.old r) }
{
    match r {
        Ok(m) => {
            put_metadata(out, m);
            0
        }
        Err(e) => refusal(e),
    }
}

pub fn end_taken<E: Refusal>(out: &mut [u64], r: Result<usize, E>) -> u32
    requires { length out.old ≡ 1 }
    ensures { (result ≡ told_by E.number_of r) × (out.new ≡ taken_words_by out.old r) }
{
    match r {
        Ok(n) => {
            put_next(out, n as u64);
            0
        }
        Err(e) => refusal(e),
    }
}

// The listing began at slot `from`.
pub fn end_listed<E: Refusal>(next: &mut [u64], from: u64, r: Result<usize, E>) -> u32
    requires { (length next.old ≡ 1) × ((n : ℕ) → r ≡ Ok n → from + n < 18446744073709551616) }
    ensures { (result ≡ told_by E.number_of r) × (next.new ≡ listed_words_by next.old from r) }
{
    match r {
        Ok(n) => {
            put_next(next, from + n as u64);
            0
        }
        Err(e) => refusal(e),
    }
}
