// What a run has left in the workspace, written as a report, with refusal 6; beside it an index, with refusal 19.
ghost use Rattle.std.specs.Prelude.{◌≡◌};
ghost use Rattle.definition.specs.Call.{reported};
ghost use Rattle.layout.specs.Indexed.{tables_of};
ghost use Rattle.run_state.specs.Course.{Ended};
ghost use Rattle.report_size.specs.Reporting.{Faultless, report_in};
ghost use Rattle.call.specs.delivering.Told.{Told, ToldIndexed};

use answers::{Accepted, AcceptedIndexed, Refusal, nowhere};
use layout::Tables;
use report_index::{ENTRY, write_index};
use report_size::{count_records, measure};
use report_write::write;

// Measures the report, and writes it where the buffer is long enough; refusal 6 where it is not.
pub fn deliver(
    s: &[u8],
    ws: &[u32],
    buf: &mut [u8],
    t: Tables,
    reply: u32,
    steps: u32,
) -> Result<Accepted, Refusal>
    requires ended { Ended s.now ws.now }
    requires faultless { Faultless s.now ws.now }
    requires t_value { t ≡ tables_of s.now }
    ensures { Told (reported (report_in s.now ws.now reply) steps) buf.old result buf.new }
{
    let length = measure(s, ws, t);
    if buf.len() < length {
        return Err(nowhere(6, steps));
    }
    write(s, ws, buf, t, reply);
    Ok(Accepted { length, steps })
}

// Measures both, and writes them where both buffers are long enough; refusal 6, then 19, where one is not.
pub fn deliver_indexed(
    s: &[u8],
    ws: &[u32],
    buf: &mut [u8],
    idx: &mut [u8],
    t: Tables,
    reply: u32,
    steps: u32,
) -> Result<AcceptedIndexed, Refusal>
    requires ended { Ended s.now ws.now }
    requires faultless { Faultless s.now ws.now }
    requires t_value { t ≡ tables_of s.now }
    ensures { ToldIndexed (reported (report_in s.now ws.now reply) steps)
        buf.old idx.old result buf.new idx.new }
{
    let report = measure(s, ws, t);
    let index = ENTRY * count_records(s, ws, t);
    if buf.len() < report {
        return Err(nowhere(6, steps));
    }
    if idx.len() < index {
        return Err(nowhere(19, steps));
    }
    write(s, ws, buf, t, reply);
    write_index(&buf[..report], idx);
    Ok(AcceptedIndexed {
        length: report,
        steps,
        index,
    })
}
