//! Hashes computed by another program, `tests/murmur_table.py`, from the public algorithm.

use murmur_hash::{hash8, identity};

const TABLE: &[(u64, u64)] = &[
    (0x0000000000000000, 0x4772b084e028ae41),
    (0x0000000000000001, 0xe8bd67d616d4ce9a),
    (0x0000000000000002, 0xd62f9cd21b013f5a),
    (0x0000000000000003, 0x6b596e4f0e43e4d1),
    (0x0000000000000004, 0x67ae8b02f5abbabc),
    (0x0000000000000005, 0xabdd7bc328613f9f),
    (0x0000000000000006, 0x1fd9d823a062df38),
    (0x0000000000000007, 0xdd7c2bae73982156),
    (0x000000000000007f, 0xdc2b7641bf67c9c5),
    (0x0000000000000080, 0xc7b93952c365ccc1),
    (0x00000000000000ff, 0x4e2fc5b5b87bf79a),
    (0x0000000000000100, 0x4964fc5b464976da),
    (0x0000000000007fff, 0x5a5a9cccc3649475),
    (0x0000000000008000, 0x1eec8ae824cbe8f4),
    (0x000000000000ffff, 0x199acff150acd49c),
    (0x0000000000010000, 0x5da144029ec1bfad),
    (0x0000000000ffffff, 0x7e4969a2af20bc89),
    (0x0000000001000000, 0xba6b10b011e09e86),
    (0x000000007fffffff, 0x7b605196c50c3e56),
    (0x0000000080000000, 0x734f3b6e502d8c86),
    (0x00000000ffffffff, 0x007260ffc08751be),
    (0x0000000100000000, 0xbbb12d133b78fd64),
    (0x00000001ffffffff, 0xf072c1a1e063f1ee),
    (0x0000000200000000, 0x42649279ba155e61),
    (0x000000ffffffffff, 0x9e1af33611df707e),
    (0x0000010000000000, 0xf7eebd7bc2dc2c2b),
    (0x0000ffffffffffff, 0x590b5c7705563faf),
    (0x0001000000000000, 0x8d26fc28940f4e08),
    (0x00ffffffffffffff, 0xaf8bc09dad22bc92),
    (0x0100000000000000, 0xa2e92d14e29fa626),
    (0x7fffffffffffffff, 0x11b0aae005faa06a),
    (0x8000000000000000, 0x998a35e4316acfa8),
    (0xffffffffffffffff, 0x574f66bd212b5d1a),
    (0x0123456789abcdef, 0x708036264c109d93),
    (0x6c576fac43fd007c, 0x50b060bf6d12a88b),
    (0x826886b3864a1b1b, 0x76fd7453e54c698b),
    (0xa5fae1992097aa0e, 0xd32f258ccd7e9c10),
    (0x620355cd119357c5, 0xef81b938d83b2dac),
    (0xcba276b4b881a9f0, 0x57262b1f48dd014e),
    (0x802181e6e230707f, 0xafcb5b95044eb51c),
    (0x8dceb534efa548a2, 0xa6dec3fe121b9965),
    (0x10bf51ed74c7a3c9, 0x2ba8b847099693de),
    (0xd6f84a5288bd02a4, 0x141a4f82743b5a6f),
    (0x32ccf775fe645423, 0xb40d4a3f6a01cb00),
    (0xbeea83f6d126a876, 0x42c764274d8755a1),
    (0x892769e4fd73a80d, 0x58f308cdbc594ee0),
    (0xc89f7af990ab7e98, 0x2f71e699cec464cd),
    (0x512a264047d22a07, 0x9e64efcd349f3f77),
];

#[test]
fn has_known_hashes(rt: HostRuntime) {
    for (number, hash) in TABLE {
        assert_eq!(rt; hash8(*number), *hash, "of {number}");
        assert_eq!(rt; identity(*number), *number);
    }
}
