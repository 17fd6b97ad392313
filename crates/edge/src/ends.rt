// The ends by an answer that one call alone gives: move's, and the check's.
ghost use Rattle.std.specs.Prelude.{◌≡◌, length};
ghost use Rattle.mem.specs.Mem.{table_in, memory_size};
ghost use Rattle.calls.specs.Answers.{told_by};
ghost use Rattle.edge.specs.Edge.{Answers, counted, counts_of, course_table_by};

use calls::refusals::Refusal;
use calls_move::Course;
use edge_ends::ends::refusal;
use edge_words::results::put_counts;
use fsck::Verdict;
use mem::write_back;
use table_bytes::settle_marks;

// The table as memory has it; where both names are one node's, the table is written as it was given.
pub fn end_course<E: Refusal>(table: &mut [u8], mem: &[u8], r: Result<Course, E>) -> u32
    requires { (length table.old ≡ 4402) × (length mem.now ≡ memory_size) }
    ensures { (result ≡ told_by E.number_of r) × (table.new ≡ course_table_by table.old (table_in mem.now) r) }
{
    match r {
        Ok(Course::Made) => {
            write_back(table, mem);
            0
        }
        Ok(Course::Same) => {
            settle_marks(table);
            0
        }
        Err(e) => refusal(e),
    }
}

pub fn end_verdict(out: &mut [u64], v: Verdict) -> u32
    requires { length out.old ≡ 3 }
    ensures { Answers (counted v) counts_of out.old out.new result }
{
    match v {
        Verdict::Pass {
            nodes,
            unused,
            free,
        } => {
            put_counts(out, nodes, unused, free);
            0
        }
        Verdict::Fail(rule) => rule as u32,
    }
}
