// Numbers that code and definitions share, and that no run tells from their neighbours.
use crate::expect::same;
use dt_exec::limits::{LIST_ENTRY, LIST_LIMIT};
use dt_pipes::PIPE_NUMBER_LIMIT;
use dt_procs::PID_LIMIT;
use dt_timecalls::time::TIMEZONE_LEN;
use dt_tree::NAMES_LIMIT;
use std::test::Fail;

#[test]
fn limits_that_no_run_reaches(rt: HostRuntime) -> Result<(), Fail> {
    same(&rt, NAMES_LIMIT, 2_147_483_648);
    same(&rt, PID_LIMIT, 2_147_483_648);
    same(&rt, PIPE_NUMBER_LIMIT, 2_147_483_649);
    same(&rt, LIST_ENTRY, 8);
    same(&rt, LIST_LIMIT, 34_359_738_368);
    same(&rt, TIMEZONE_LEN, 8);
    Ok(())
}
