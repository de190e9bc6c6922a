// Tables cleared: before a load, and again after one that is refused.
#![tactic(auto)]

ghost use Rattle.clearing.specs.Cleared.{Cleared5, Cleared6, Cleared, Settled};

use iff::Verdict;

fn clear5(t1: &mut [u64], t2: &mut [u64], t3: &mut [u64], t4: &mut [u64], t5: &mut [u64])
    ensures { Cleared5
        t1.old t2.old t3.old t4.old t5.old
        t1.new t2.new t3.new t4.new t5.new }
{
    table_writes::clear(t1);
    table_writes::clear(t2);
    table_writes::clear(t3);
    table_writes::clear(t4);
    table_writes::clear(t5);
}

fn clear6(
    t1: &mut [u64],
    t2: &mut [u64],
    t3: &mut [u64],
    t4: &mut [u64],
    t5: &mut [u64],
    t6: &mut [u64],
)
    ensures { Cleared6
        t1.old t2.old t3.old t4.old t5.old t6.old
        t1.new t2.new t3.new t4.new t5.new t6.new }
{
    table_writes::clear(t1);
    table_writes::clear(t2);
    table_writes::clear(t3);
    table_writes::clear(t4);
    table_writes::clear(t5);
    table_writes::clear(t6);
}

pub fn clear_all(
    t1: &mut [u64],
    t2: &mut [u64],
    t3: &mut [u64],
    t4: &mut [u64],
    t5: &mut [u64],
    t6: &mut [u64],
    t7: &mut [u64],
    t8: &mut [u64],
    t9: &mut [u64],
    t10: &mut [u64],
    t11: &mut [u64],
)
    ensures { Cleared
        t1.old t2.old t3.old t4.old t5.old t6.old t7.old
        t8.old t9.old t10.old t11.old
        t1.new t2.new t3.new t4.new t5.new t6.new t7.new
        t8.new t9.new t10.new t11.new }
{
    clear5(t1, t2, t3, t4, t5);
    clear6(t6, t7, t8, t9, t10, t11);
}

// What a refused load has read so far is cleared again.
pub fn settle(
    v: Verdict,
    t1: &mut [u64],
    t2: &mut [u64],
    t3: &mut [u64],
    t4: &mut [u64],
    t5: &mut [u64],
    t6: &mut [u64],
    t7: &mut [u64],
    t8: &mut [u64],
    t9: &mut [u64],
    t10: &mut [u64],
    t11: &mut [u64],
)
    ensures { Settled v
        t1.old t2.old t3.old t4.old t5.old t6.old t7.old
        t8.old t9.old t10.old t11.old
        t1.new t2.new t3.new t4.new t5.new t6.new t7.new
        t8.new t9.new t10.new t11.new }
{
    match v {
        Ok(()) => {}
        Err(_) => {
            clear_all(t1, t2, t3, t4, t5, t6, t7, t8, t9, t10, t11);
        }
    }
}
