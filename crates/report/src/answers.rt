// The lines of a log's queries, in their order, answered over all of its readings.
ghost use Rattle.std.specs.Prelude.{length};
ghost use Rattle.table.specs.Heads.{settings, table};
ghost use Rattle.reader.specs.Content.{said_at};
ghost use Rattle.reader.specs.Walk.{items};
ghost use Rattle.text.specs.Text.{Written};
ghost use Rattle.report.specs.Report.{answer_lines, query_text, per_query};
ghost use Rattle.report.specs.Inner.{reply_line, ReplyRoom, RepliesRoom, AnswersRoom};

use crate::MOST_LOG_CAPACITY;
use crate::lines::put_answer;
use blur::blur;
use filter::reply::reply_at;
use lattice::refusals::number_told;
use reader::content::{MOST_NUMBERS, content_at};
use reader::kinds::{Kind, Meaning};
use reader::read_at;
use reader::settings::AFTER_SETTINGS;
use table::Head;

// An item of a kind: the line of a query, and nothing for any other.
fn put_reply(
    out: &mut [u8],
    at: usize,
    head: Head,
    keys: &[i32],
    index: &[u16],
    sheet: &[i64],
    log: &[u8],
    offset: usize,
    kind: Kind,
) -> usize
    requires { ReplyRoom (settings head) (table head keys.now sheet.now index.now) log.now offset kind at (length out.old) }
    ensures { let t = table head keys.now sheet.now index.now in
        Written out.old at (query_text (reply_line (settings head) t) (said_at log.now offset kind)) result out.new }
{
    let mut numbers = [0i32; MOST_NUMBERS];
    match content_at(log, offset, kind, &mut numbers) {
        Meaning::Asks => {
            let reply = reply_at(head, keys, index, sheet, &numbers[..head.d + 1]);
            put_answer(out, at, reply.unwrap_or(0), number_told(&reply))
        }
        Meaning::Reads(_) | Meaning::Refuses(_) => at,
    }
}

fn put_replies(
    out: &mut [u8],
    at: usize,
    head: Head,
    keys: &[i32],
    index: &[u16],
    sheet: &[i64],
    log: &[u8],
) -> usize
    requires { RepliesRoom (settings head) (table head keys.now sheet.now index.now) log.now at (length out.old) }
    ensures { let c = settings head in
        let t = table head keys.now sheet.now index.now in
        Written out.old at (per_query (reply_line c t) (items log.now)) result out.new }
{
    let mut next = at;
    let mut offset = AFTER_SETTINGS;
    // A loop: an item is answered by the offset that it stands at, and the items alone do not say it.
    loop {
        let found = read_at(log, offset);
        let kind = match found.item {
            Ok(Some(kind)) => kind,
            // Two arms: of one for both a proof would not know at which it is.
            Ok(None) => break,
            Err(_) => break,
        };
        next = put_reply(out, next, head, keys, index, sheet, log, offset, kind);
        offset = found.next;
    }
    next
}

// The table of the whole log is blurred once, and every query answered by it.
pub fn put_answers(
    out: &mut [u8],
    at: usize,
    head: Head,
    keys: &[i32],
    sums: &[i64],
    index: &[u16],
    log: &[u8],
) -> usize
    requires { AnswersRoom (settings head) (table head keys.now sums.now index.now) log.now at (length out.old) }
    ensures { let t = table head keys.now sums.now index.now in
        Written out.old at (answer_lines (settings head) t (items log.now)) result out.new }
{
    let mut first = [0i64; 2 * MOST_LOG_CAPACITY];
    let mut second = [0i64; 2 * MOST_LOG_CAPACITY];
    let numbers = 2 * head.capacity;
    blur(
        head,
        keys,
        sums,
        index,
        &mut first[..numbers],
        &mut second[..numbers],
    );
    put_replies(out, at, head, keys, index, &first[..numbers], log)
}
