// The late looks: a call taking more than its callee's parameters, a `Yield` without site.
ghost use Rattle.std.specs.Prelude.{◌≡◌, true, ◌-◌, ◌<◌, ◌≤◌, ◌^◌, length, get_or};
ghost use Rattle.description.specs.Fields.{fields_from};
ghost use Rattle.definition.specs.Bounds.{most_bytes, most_chunks};
ghost use Rattle.definition.specs.Form.{late_fault, late_look};
ghost use Rattle.form.specs.late_checks.Counted.{counted, param_list, param_table, passed};

use answers::{Refusal, in_field};
use definition::params_in;
use description::{has_site, instr_at, next_at, tag_at};
use ops::{CALL, YIELD};

// The parameter shapes of each chunk with a signature.
fn parameters(s: &[u8], signatures: u16) -> [u8; 64]
    requires { length s.now ≤ most_bytes }
    ensures { result ≡ param_table s.now signatures }
{
    let mut params = [0u8; 64];
    let mut p: usize = 0;
    let mut chunk: usize = 0;
    let left = signatures as usize;
    while p < s.len() {
        let next = next_at(s, p);
        if (tag_at(s, p) == 2) & (chunk < 64) {
            params[chunk] = params_in(s, p, chunk < left);
            chunk += 1;
        }
        p = next;
    }
    params
}

// The parameter shapes of a callee; one past the table has none.
fn params_for(params: [u8; 64], callee: u32) -> u8
    ensures { result ≡ get_or params callee 0 }
{
    let at = callee as usize;
    if at < 64 {
        return params[at];
    }
    0
}

// The instruction at p asks for more than its callee's parameters, or yields without a site.
fn faulty(s: &[u8], p: usize, params: [u8; 64]) -> bool
    requires { p < 2 ^ 61 }
    ensures { result ≡ late_fault s.now params p }
{
    let i = instr_at(s, p);
    let few = params_for(params, i.a) < i.taken;
    let site = has_site(s, p);
    ((i.op == CALL) & few) | ((i.op == YIELD) & !site)
}

// The number of the last chunk of so many.
pub fn before(seen: u16) -> u16
    ensures { result ≡ seen - 1 }
{
    if 0 < seen { seen - 1 } else { 0 }
}

// The first fault by chunk and instruction.
pub fn late_look(s: &[u8], signatures: u16) -> Result<(), Refusal>
    requires { (length s.now ≤ most_bytes) × (counted s.now 0 0 (fields_from s.now 0) ≡ true) × (signatures ≤ most_chunks) }
    ensures { result ≡ passed (late_look s.now (param_list s.now signatures) 0 0 (fields_from s.now 0)) }
{
    let params = parameters(s, signatures);
    let mut at: usize = 0;
    let mut chunk: u16 = 0;
    let mut instr: u16 = 0;
    while at < s.len() {
        let tag = tag_at(s, at);
        let next = next_at(s, at);
        if tag == 2 {
            chunk += 1;
            instr = 0;
        } else if tag == 3 {
            if faulty(s, at, params) {
                return Err(in_field(3, before(chunk), instr));
            }
            instr += 1;
        }
        at = next;
    }
    Ok(())
}
