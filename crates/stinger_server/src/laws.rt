//! Laws of what arguments ask for.

ghost use Rattle.std.specs.Prelude.{◌∷◌, [], codes};
ghost use Rattle.stinger_server.specs.Program.{Asked, DrivesWithinLimits, EachAsks, EachDrives, EachIsRefused, EachServes};
ghost use Rattle.stinger_server.specs.Program.{EachServesQuietly, ReadsPlainly, ServesWithinLimits, arguments_of, default_run};

/// What arguments ask for, at lists that are written out; that without options it is what our own words say; and that a
/// script is served with sizes within their limits alone, and a drive has one to four readers.
pub fn law_arguments()
    ensures serve { EachAsks (Asked.Serve default_run) ((codes "run" ∷ []) ∷ (codes "run" ∷ codes "--" ∷ []) ∷ []) }
    ensures help { EachAsks Asked.Help ((codes "--help" ∷ []) ∷ (codes "-h" ∷ []) ∷ (codes "help" ∷ [])
        ∷ (codes "help" ∷ codes "run" ∷ []) ∷ (codes "run" ∷ codes "--help" ∷ []) ∷ (codes "run" ∷ codes "-h" ∷ [])
        ∷ (codes "help" ∷ codes "drive" ∷ []) ∷ (codes "drive" ∷ codes "--help" ∷ []) ∷ (codes "drive" ∷ codes "-h" ∷ []) ∷ []) }
    ensures version { EachAsks Asked.Version ((codes "--version" ∷ []) ∷ (codes "--version" ∷ codes "run" ∷ [])
        ∷ (codes "-V" ∷ []) ∷ []) }
    ensures usage { EachAsks Asked.Usage ([] ∷ (codes "fly" ∷ []) ∷ (codes "run" ∷ codes "now" ∷ [])
        ∷ (codes "run" ∷ codes "run" ∷ []) ∷ (codes "--" ∷ codes "run" ∷ []) ∷ (codes "--help=run" ∷ []) ∷ (codes "-w" ∷ [])
        ∷ (codes "" ∷ []) ∷ (codes "run" ∷ codes "--version" ∷ []) ∷ (codes "drive" ∷ []) ∷ (codes "drive" ∷ codes "--" ∷ [])
        ∷ (codes "drive" ∷ codes "now" ∷ []) ∷ (codes "drive" ∷ codes "run" ∷ []) ∷ (codes "run" ∷ codes "drive" ∷ []) ∷ []) }
    ensures plain { ReadsPlainly }
    ensures limits { ServesWithinLimits }
    ensures drive_limits { DrivesWithinLimits }
{}

/// What the options of `run` ask for: each by itself, in both its forms and at both its limits, those with a number in any order,
/// `--quiet` before and behind them, and the mistakes: a number past a limit, no number, no value, an option twice, a value too
/// many. And the same of `drive`, whose option is also missed where it is left out.
pub fn law_options()
    ensures workers { EachServes 1 16384 2 (codes "run --workers 1" ∷ codes "run --workers=1" ∷ codes "run --workers 01 --"
        ∷ []) }
    ensures most_workers { EachServes 8 16384 2 (codes "run --workers 8" ∷ codes "run --workers=8" ∷ []) }
    ensures blocks { EachServes 4 16 2 (codes "run --blocks 16" ∷ codes "run --blocks=16" ∷ []) }
    ensures most_blocks { EachServes 4 65536 2 (codes "run --blocks 65536" ∷ codes "run --blocks=65536" ∷ []) }
    ensures seats { EachServes 4 16384 1 (codes "run --seats 1" ∷ codes "run --seats=1" ∷ []) }
    ensures most_seats { EachServes 4 16384 16 (codes "run --seats 16" ∷ codes "run --seats=16" ∷ []) }
    ensures all { EachServes 2 64 3 (codes "run --workers 2 --blocks 64 --seats 3" ∷ codes "run --workers=2 --seats=3 --blocks=64"
        ∷ codes "run --blocks 64 --workers 2 --seats 3" ∷ codes "run --blocks=64 --seats 3 --workers 2"
        ∷ codes "run --seats 3 --workers=2 --blocks 64" ∷ codes "run --seats 3 --blocks 64 --workers 2" ∷ []) }
    ensures quiet { EachServesQuietly 4 16384 2 (codes "run --quiet" ∷ codes "run --quiet --" ∷ []) }
    ensures all_and_quiet { EachServesQuietly 2 64 3 (codes "run --quiet --workers 2 --blocks 64 --seats 3"
        ∷ codes "run --seats=3 --workers=2 --quiet --blocks=64" ∷ codes "run --workers 2 --blocks 64 --seats 3 --quiet" ∷ []) }
    ensures workers_past { EachIsRefused (codes "run --workers 0" ∷ codes "run --workers 9" ∷ codes "run --workers=256"
        ∷ codes "run --workers -1" ∷ codes "run --workers x" ∷ codes "run --workers " ∷ codes "run --workers=" ∷ []) }
    ensures blocks_past { EachIsRefused (codes "run --blocks 15" ∷ codes "run --blocks 65537" ∷ codes "run --blocks 4294967312"
        ∷ codes "run --blocks 1e3" ∷ codes "run --blocks " ∷ []) }
    ensures seats_past { EachIsRefused (codes "run --seats 0" ∷ codes "run --seats 17" ∷ codes "run --seats 2.0"
        ∷ codes "run --seats=" ∷ []) }
    ensures twice { EachIsRefused (codes "run --workers 2 --workers 2" ∷ codes "run --blocks=64 --blocks 64"
        ∷ codes "run --seats 1 --blocks 64 --seats 1" ∷ codes "run --quiet --quiet" ∷ []) }
    ensures without_value { EachIsRefused (codes "run --workers" ∷ codes "run --seats 3 --blocks" ∷ codes "run --seats"
        ∷ codes "run --workers --seats 2" ∷ []) }
    ensures elsewhere { EachIsRefused (codes "--workers 2 run" ∷ codes "--seats=1" ∷ codes "run 2" ∷ codes "run --workers 2 3"
        ∷ codes "run -- --workers 2" ∷ codes "run --worker 2" ∷ codes "run -w 2" ∷ codes "run --quiet=true" ∷ codes "run --quiet 1"
        ∷ codes "--quiet run" ∷ codes "run -q" ∷ []) }
    ensures help { EachAsks Asked.Help (arguments_of (codes "run --workers 2 --help") ∷ arguments_of (codes "run --seats=1 -h")
        ∷ arguments_of (codes "drive --readers 2 --help") ∷ arguments_of (codes "drive --readers=1 -h") ∷ []) }
    ensures one_reader { EachDrives 1 (codes "drive --readers 1" ∷ codes "drive --readers=1" ∷ codes "drive --readers 01 --"
        ∷ []) }
    ensures two_readers { EachDrives 2 (codes "drive --readers 2" ∷ codes "drive --readers=2" ∷ []) }
    ensures three_readers { EachDrives 3 (codes "drive --readers 3" ∷ codes "drive --readers=3 --" ∷ []) }
    ensures four_readers { EachDrives 4 (codes "drive --readers 4" ∷ codes "drive --readers=4" ∷ []) }
    ensures readers_past { EachIsRefused (codes "drive --readers 0" ∷ codes "drive --readers 5" ∷ codes "drive --readers=256"
        ∷ codes "drive --readers -1" ∷ codes "drive --readers x" ∷ codes "drive --readers " ∷ codes "drive --readers=" ∷ []) }
    ensures readers_twice { EachIsRefused (codes "drive --readers 2 --readers 2" ∷ codes "drive --readers=1 --readers 2" ∷ []) }
    ensures no_readers { EachIsRefused (codes "drive" ∷ codes "drive --" ∷ codes "drive --readers" ∷ codes "drive -- --readers 2"
        ∷ []) }
    ensures drive_elsewhere { EachIsRefused (codes "--readers 2 drive" ∷ codes "run --readers 2" ∷ codes "drive --workers 2"
        ∷ codes "drive --readers 2 3" ∷ codes "drive 2" ∷ codes "drive --reader 2" ∷ codes "drive -r 2" ∷ codes "drive --quiet"
        ∷ codes "drive --readers 2 --quiet" ∷ []) }
{}
