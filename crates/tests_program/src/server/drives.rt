// How a drive's answers are spread over its feed.

use super::checks::check_at;
use store_drive::drive_counted;

// Each of two readers asks five requests in each of 16 rounds, 160 in all. From the second round on batch 4 was posted, and until
// the fifteenth is done batch 64 wasn't: so the answers of 14 rounds, 140 of them, are of versions between.
#[test]
fn most_answers_of_a_drive_are_of_versions_between_the_first_and_the_last(rt: HostRuntime) {
    let counts = drive_counted(&rt, 2).expect(&rt, "memory is ample");
    check_at(&rt, counts.report.checked == 160, 160);
    check_at(&rt, counts.between >= 140, u64::from(counts.between));
    check_at(&rt, counts.report.last == 64, counts.report.last);
    check_at(&rt, counts.recycled > 0, 0);
}
