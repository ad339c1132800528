//! Names that no command line can have.

use club_requests::is_name;

#[test]
fn a_name_has_no_blank(rt: HostRuntime) {
    assert!(rt; is_name("autumn_2026.A-b"));
    assert!(rt; !is_name("autumn 2026"));
}
