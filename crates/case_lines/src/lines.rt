// Lines that are read, table by table: a number beside a line is the one that refuses it.

pub(crate) const FIRST_LINES: [&[u8]; 11] = [
    b"board\t2\t1\t0",
    b"board\t2\t1", // no parents
    b"board\t256\t255\t0\t1\t2",
    b"board\t65535\t65535\t65535", // numbers all the same
    b"board", // 23
    b"board\t2", // 23
    b"board\t", // 23, before 24
    b"board\tx", // 23, before 24
    b"board\t\t", // 24
    b"board\t2\t1\t", // 24, an empty parent
    b"board\t2\t65536", // 24
];

pub(crate) const OTHER_FIRST_LINES: [&[u8]; 9] = [
    b"start\t0", // 25
    b"start", // 25, before 23
    b"start\tx", // 25, before 24
    b"", // 22
    b"stop\t0", // 22, before 25
    b"boards\t2\t1", // 22
    b"Board\t2\t1", // 22
    b"board 2 1", // 22
    b"\tboard\t2\t1", // 22, an empty word
];

pub(crate) const STEPS: [&[u8]; 11] = [
    b"start\t1",
    b"send\t1\t2\t3",
    b"request\t1\t2",
    b"deliver\t1",
    b"rest\t1",
    b"tick\t1",
    b"release\t1\t2",
    b"move\t2\t1",
    b"board\t2\t1\t0", // 25
    b"board", // 25, before 23
    b"board\t2\tx", // 25, before 24
];

pub(crate) const WORDS: [&[u8]; 12] = [
    b"", // 22
    b"\t1", // 22
    b"star\t1", // 22
    b"starts\t1", // 22
    b"mov\t2\t1", // 22
    b"moved\t2\t1", // 22
    b"START\t1", // 22
    b" start\t1", // 22
    b"stop", // 22, before 23
    b"stop\tx", // 22, before 24
    b"start\r", // 22
    b"st\xe4rt\t1", // 22
];

pub(crate) const COUNTS: [&[u8]; 12] = [
    b"rest", // 23
    b"rest\t", // 24
    b"rest\t\t", // 23, before 24
    b"rest\t1\t2", // 23
    b"rest\t1\t", // 23, before 24
    b"send\t1\t2", // 23
    b"send\t1\t2\t3\t4", // 23
    b"release\t1", // 23
    b"request\t1\t2\t3", // 23
    b"deliver\t1\t2", // 23
    b"move\t2", // 23
    b"move\t2\t1\t0", // 23
];

pub(crate) const NUMBERS: [&[u8]; 10] = [
    b"start\t7",
    b"start\t65535",
    b"start\t65536", // 24
    b"start\t18446744073709551617", // 24, and not 1
    b"send\t\t2\t3", // 24, an empty field
    b"send\t1\t\t3", // 24
    b"send\t1\t2\tx", // 24
    b"start\t1\r", // 24
    b"start\t1\xb1", // 24
    b"start\t1\x00", // 24
];

pub(crate) const DIGITS: [&[u8]; 8] = [
    b"start\t1023456789", // 24
    b"send\t12340\t5678\t9",
    b"start\t/", // 24, the byte before the digit 0
    b"start\t:", // 24, the byte after the digit 9
    b"start\t-1", // 24
    b"start\t+1", // 24
    b"start\t 1", // 24
    b"start\t1 ", // 24
];

pub(crate) const PADDED: [&[u8]; 12] = [
    b"start\t0", // not padded
    b"start\t00", // 28
    b"start\t07", // 28
    b"start\t00065535", // 28
    b"start\t0070000", // 28, and above 65,535
    b"start\t0123456789", // 28
    b"start\t70", // not padded
    b"start\t0x", // 24
    b"start\t0:", // 24, the byte after the digit 9
    b"start\t0/", // 24, the byte before the digit 0
    b"start\t000x", // 24
    b"start\t-01", // 24
];

pub(crate) const PADDED_FIELDS: [&[u8]; 13] = [
    b"send\t0\t0\t0", // not padded
    b"send\t01\t2\t3", // 28, the first
    b"send\t1\t02\t3", // 28, a middle one
    b"send\t1\t2\t03", // 28, the last
    b"send\t01\tx\t3", // 28, before 24 behind it
    b"send\tx\t2\t03", // 28, before 24 in front of it
    b"send\t01\t2\t", // 28, and an empty field
    b"send\t\t02\t3", // 28, and an empty field in front
    b"send\t65536\t2\t03", // 28, and a number above 65,535
    b"move\t2\t01", // 28
    b"rest\t01\t2", // 23, before 28
    b"board\t01\t1", // 25, before 28
    b"stop\t01", // 22, before 28
];

pub(crate) const PADDED_FIRST_LINES: [&[u8]; 9] = [
    b"board\t0\t0\t0", // not padded
    b"board\t02\t1\t0", // 28, M
    b"board\t2\t01\t0", // 28, d
    b"board\t2\t1\t00\t1", // 28, the first parent
    b"board\t2\t1\t0\t01", // 28, the last
    b"board\t02\tx", // 28, before 24 behind it
    b"board\tx\t02", // 28, before 24 in front of it
    b"board\t02", // 23, before 28
    b"start\t02", // 25, before 28
];
