//! Program texts for tests.

/// One round of Cole and Vishkin (1986).
pub const CV1: &[u8] =
    b"rounds 1\nchannels 6\nregisters 1\nstart\nr0 = id\nround\nsend left 0\nsend right r0\nr0 = add(shl(ldb(r0, L), 1), bit(r0, ldb(r0, L)))\nfinish r0\n";

/// `CV1` with twelve channels.
pub const CV1_OF_12: &[u8] =
    b"rounds 1\nchannels 12\nregisters 1\nstart\nr0 = id\nround\nsend left 0\nsend right r0\nr0 = add(shl(ldb(r0, L), 1), bit(r0, ldb(r0, L)))\nfinish r0\n";

/// The least bit in which a node differs from its left neighbour.
pub const LDB: &[u8] =
    b"rounds 1\nchannels 3\nregisters 1\nstart\nr0 = id\nround\nsend left 0\nsend right r0\nr0 = ldb(r0, L)\nfinish r0\n";

/// No round: the identifier.
pub const ID0: &[u8] = b"rounds 0\nchannels 2\nregisters 1\nstart\nr0 = id\nfinish r0\n";

/// `CV1` and two more rounds, which reduce its channels to four.
pub const RED: &[u8] =
    b"rounds 3\nchannels 4\nregisters 1\nstart\nr0 = id\nround\nsend left 0\nsend right r0\nr0 = add(shl(ldb(r0, L), 1), bit(r0, ldb(r0, L)))\nround\nsend left r0\nsend right r0\nr0 = min(if(eq(r0, 5), if(and(ne(L, 0), ne(R, 0)), 0, if(and(ne(L, 1), ne(R, 1)), 1, 2)), r0), 4)\nround\nsend left r0\nsend right r0\nr0 = min(if(eq(r0, 4), if(and(ne(L, 0), ne(R, 0)), 0, if(and(ne(L, 1), ne(R, 1)), 1, 2)), r0), 3)\nfinish r0\n";

/// Two registers, each computed from the other. The channel is the sum of the identifier and the
/// left neighbour's.
pub const TWO_REGISTERS: &[u8] =
    b"rounds 1\nchannels 64\nregisters 2\nstart\nr0 = id\nr1 = 0\nround\nsend left r1\nsend right r0\nr0 = r1\nr1 = add(r0, L)\nfinish r1\n";

/// Eight registers and three rounds. Each round moves the registers down by one, and the message
/// from the left becomes the last. So in the end register 0 has the value of register 3, and
/// register 5 that of the left neighbour's register 1.
pub const EIGHT_REGISTERS: &[u8] =
    b"rounds 3\nchannels 64\nregisters 8\nstart\nr0 = id\nr1 = add(id, 1)\nr2 = add(id, 2)\nr3 = add(id, 3)\nr4 = add(id, 4)\nr5 = add(id, 5)\nr6 = add(id, 6)\nr7 = add(id, 7)\nround\nsend left 0\nsend right r1\nr0 = r1\nr1 = r2\nr2 = r3\nr3 = r4\nr4 = r5\nr5 = r6\nr6 = r7\nr7 = L\nround\nsend left 0\nsend right r1\nr0 = r1\nr1 = r2\nr2 = r3\nr3 = r4\nr4 = r5\nr5 = r6\nr6 = r7\nr7 = L\nround\nsend left 0\nsend right r1\nr0 = r1\nr1 = r2\nr2 = r3\nr3 = r4\nr4 = r5\nr5 = r6\nr6 = r7\nr7 = L\nfinish add(r0, r5)\n";
