// The program that drives a store. Those that serve a script and take arguments are called under the same names by the tests of
// `server`, which run them.

ghost use Rattle.store_drive.specs.Reports.{IsReaderCount};

use std::sync::Wait;
use std::thread::Threads;
use stinger_server::{DriveFault, DriveReport, drive};

fn drives<A: AllocGlobal + Threads + Wait + Sync>(
    rt: &A,
    readers: usize,
) -> Result<DriveReport, DriveFault>
    requires { IsReaderCount readers }
{
    drive(rt, readers)
}
