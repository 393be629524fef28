// The nine functions at their edges.
use instructions::binary::binary;
use labels::cell::Word;

#[test]
fn each_function_at_its_edges(rt: HostRuntime) {
    let table = [
        (0, 4_294_967_295, 1, 0),
        (0, 2, 3, 5),
        (1, 0, 1, 4_294_967_295),
        (1, 5, 3, 2),
        (2, 12, 10, 8),
        (3, 12, 10, 14),
        (4, 12, 10, 6),
        (5, 1, 31, 2_147_483_648),
        (5, 1, 32, 0),
        (5, 1, 4_294_967_295, 0),
        (6, 2_147_483_648, 31, 1),
        (6, 2_147_483_648, 32, 0),
        (6, 2_147_483_648, 4_294_967_295, 0),
        (7, 1, 2, 1),
        (7, 2, 2, 0),
        (7, 4_294_967_295, 0, 0),
        (8, 2, 2, 1),
        (8, 2, 3, 0),
    ];
    for (k, a, b, expected) in table {
        assert_eq!(rt; binary(k, Word(a), Word(b)).0, expected);
    }
}
