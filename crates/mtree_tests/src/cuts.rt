// Accesses of no bytes, which no script makes.
use access_cut::{cut, number_of};
use mem_base::Ops;

/// Whether no piece is cut of no bytes.
fn is_uncut() -> bool {
    let ops = Ops::default();
    let mut cuts = cut(&ops, 8, 0);
    cuts.next().is_none()
}

#[test]
fn no_bytes_are_no_piece_and_the_number_0(rt: HostRuntime) {
    assert!(rt; is_uncut());
    assert!(rt; number_of(&[], true) == 0);
}
