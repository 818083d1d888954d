// Lines as the grammar gives them, worked out by hand, and lines of whole scripts that other code made.
use perc_base::Profile;
use perc_script_line::{Reason, ScriptLine};
use std::alloc::{AllocError, Global};
use std::test::Fail;

// Lines of scripts.
const SCRIPTS: &[u8] = b"# opening\n\
    alter 2 7 a1\n\
    conference 0009\n\
    conference 000a\n\
    deliver 1 Bob\n\
    ekt 01010101010101010101010101010101 020202020202020202020202\n\
    forward Ann 1\n\
    forward Ann 1 pt=0 marker=1 ext=abcd\n\
    forward Ann 1 pt=0 shift=1 marker=1\n\
    forward Ann 1 shift=1\n\
    forward Ann 1 shift=40000 ext=drop\n\
    forward Cat 3 to=Bob\n\
    graft 1 0 1 0\n\
    grant Ann 2 d3d3d3d3d3d3d3d3d3d3d3d3d3d3d3d3\n\
    inject 00\n\
    join Ann 11111111 3 c1c1c1c1c1c1c1c1c1c1c1c1c1c1c1c1c1c1c1c1c1c1c1c1c1c1c1c1 c2c2c2c2c2c2c2c2c2c2c2c2c2c2c2c2c2c2c2c2c2c2c2c2c2c2c2c2 d1d1d1d1d1d1d1d1d1d1d1d1d1d1d1d1\n\
    leave Bob\n\
    rekey Ann 00000000000000000000000000000100\n\
    reseal 1 Bob 0\n\
    reseal 3 Bob 0 pt=1 shift=100\n\
    reseal 2 Bob 0 pt=96 shift=65531 marker=1 ext=bede00000000\n\
    reseal 2 Bob 0 shift=1\n\
    reseal 4 Bob 7 shift=9 ext=drop\n\
    rtcp Ann 80c9000111111111\n\
    send Ann 0 0 0 -\n\
    send Ann 127 0 4294967295 0102 csrc=00000001,fffffffe ext=bede01020304 pad=7";

// Each form, with the smallest and the largest of each field.
const GOOD: &[u8] = b"\n\
    #\n\
    # a comment ~\n\
    conference 0009\n\
    conference 000a\n\
    ekt d1d1d1d1d1d1d1d1d1d1d1d1d1d1d1d1 020202020202020202020202\n\
    ekt d2d2d2d2d2d2d2d2d2d2d2d2d2d2d2d2d2d2d2d2d2d2d2d2d2d2d2d2d2d2d2d2 020202020202020202020202\n\
    join A 00000000 0 c1c1c1c1c1c1c1c1c1c1c1c1c1c1c1c1c1c1c1c1c1c1c1c1c1c1c1c1 c3c3c3c3c3c3c3c3c3c3c3c3c3c3c3c3c3c3c3c3c3c3c3c3c3c3c3c3 d1d1d1d1d1d1d1d1d1d1d1d1d1d1d1d1\n\
    join A0b1C2d3E4f5G6h7 ffffffff 65535 c2c2c2c2c2c2c2c2c2c2c2c2c2c2c2c2c2c2c2c2c2c2c2c2c2c2c2c2c2c2c2c2c2c2c2c2c2c2c2c2c2c2c2c2 c2c2c2c2c2c2c2c2c2c2c2c2c2c2c2c2c2c2c2c2c2c2c2c2c2c2c2c2c2c2c2c2c2c2c2c2c2c2c2c2c2c2c2c2 d2d2d2d2d2d2d2d2d2d2d2d2d2d2d2d2d2d2d2d2d2d2d2d2d2d2d2d2d2d2d2d2\n\
    join A 00000000 0 c1c1c1c1c1c1c1c1c1c1c1c1c1c1c1c1c1c1c1c1c1c1c1c1c1c1c1c1 c2c2c2c2c2c2c2c2c2c2c2c2c2c2c2c2c2c2c2c2c2c2c2c2c2c2c2c2c2c2c2c2c2c2c2c2c2c2c2c2c2c2c2c2 d1d1d1d1d1d1d1d1d1d1d1d1d1d1d1d1\n\
    leave A\n\
    grant A 0 d1d1d1d1d1d1d1d1d1d1d1d1d1d1d1d1\n\
    grant A 65535 d2d2d2d2d2d2d2d2d2d2d2d2d2d2d2d2d2d2d2d2d2d2d2d2d2d2d2d2d2d2d2d2\n\
    rekey A d1d1d1d1d1d1d1d1d1d1d1d1d1d1d1d1\n\
    rekey A d2d2d2d2d2d2d2d2d2d2d2d2d2d2d2d2d2d2d2d2d2d2d2d2d2d2d2d2d2d2d2d2\n\
    send A 0 0 0 -\n\
    send A 63 1 4294967295 00\n\
    send A 96 0 0 -\n\
    send A 127 0 0 -\n\
    send A 0 0 0 - csrc=00000000 ext=abcd pad=1\n\
    send A 0 0 0 - csrc=00000000 pad=255\n\
    send A 0 0 0 - ext=bede00000000\n\
    rtcp A 80c0000000000000\n\
    rtcp A bfdf000000000000\n\
    inject 00\n\
    alter 0 0 00\n\
    alter 4294967295 4294967295 00ff\n\
    graft 0 0 0 0\n\
    graft 4294967295 4294967295 4294967295 4294967295\n\
    reseal 0 A 0\n\
    reseal 4294967295 A 4294967295 pt=127 shift=65535 marker=1 ext=abcd\n\
    reseal 1 A 0 marker=0 ext=drop\n\
    forward A 0\n\
    forward A 4294967295,0,1 pt=0 shift=0 marker=0 ext=drop to=A,B\n\
    forward A 1 to=A\n\
    deliver 0 A\n\
    deliver 4294967295 A";

// Each form with something wrong.
const BAD: &[u8] = b"# a\tcomment\n\
    # \x80\n\
    #\x7f\n\
    \x20# indented\n\
    \x20\n\
    conference\n\
    conference clear\n\
    conference 0009 0009\n\
    conference 000A\n\
    conference 9\n\
    ekt d1d1d1d1d1d1d1d1d1d1d1d1d1d1d1d1\n\
    ekt d1d1d1d1d1d1d1d1d1d1d1d1d1d1d1 020202020202020202020202\n\
    ekt d1d1d1d1d1d1d1d1d1d1d1d1d1d1d1d1 02020202020202020202020200\n\
    ekt d1d1d1d1d1d1d1d1d1d1d1d1d1d1d1d1 0202020202020202020202\n\
    ekt d1d1d1d1d1d1d1d1d1d1d1d1d1d1d1d1 020202020202020202020202 00\n\
    ekt D1D1D1D1D1D1D1D1D1D1D1D1D1D1D1D1 020202020202020202020202\n\
    ekt  d1d1d1d1d1d1d1d1d1d1d1d1d1d1d1d1 020202020202020202020202\n\
    join A0b1C2d3E4f5G6h7i 00000000 0 c1c1c1c1c1c1c1c1c1c1c1c1c1c1c1c1c1c1c1c1c1c1c1c1c1c1c1c1 c3c3c3c3c3c3c3c3c3c3c3c3c3c3c3c3c3c3c3c3c3c3c3c3c3c3c3c3 d1d1d1d1d1d1d1d1d1d1d1d1d1d1d1d1\n\
    join a 00000000 0 c1c1c1c1c1c1c1c1c1c1c1c1c1c1c1c1c1c1c1c1c1c1c1c1c1c1c1c1 c3c3c3c3c3c3c3c3c3c3c3c3c3c3c3c3c3c3c3c3c3c3c3c3c3c3c3c3 d1d1d1d1d1d1d1d1d1d1d1d1d1d1d1d1\n\
    join A 0000000 0 c1c1c1c1c1c1c1c1c1c1c1c1c1c1c1c1c1c1c1c1c1c1c1c1c1c1c1c1 c3c3c3c3c3c3c3c3c3c3c3c3c3c3c3c3c3c3c3c3c3c3c3c3c3c3c3c3 d1d1d1d1d1d1d1d1d1d1d1d1d1d1d1d1\n\
    join A 0000000000 0 c1c1c1c1c1c1c1c1c1c1c1c1c1c1c1c1c1c1c1c1c1c1c1c1c1c1c1c1 c3c3c3c3c3c3c3c3c3c3c3c3c3c3c3c3c3c3c3c3c3c3c3c3c3c3c3c3 d1d1d1d1d1d1d1d1d1d1d1d1d1d1d1d1\n\
    join A DEADBEEF 0 c1c1c1c1c1c1c1c1c1c1c1c1c1c1c1c1c1c1c1c1c1c1c1c1c1c1c1c1 c3c3c3c3c3c3c3c3c3c3c3c3c3c3c3c3c3c3c3c3c3c3c3c3c3c3c3c3 d1d1d1d1d1d1d1d1d1d1d1d1d1d1d1d1\n\
    join A 00000000 65536 c1c1c1c1c1c1c1c1c1c1c1c1c1c1c1c1c1c1c1c1c1c1c1c1c1c1c1c1 c3c3c3c3c3c3c3c3c3c3c3c3c3c3c3c3c3c3c3c3c3c3c3c3c3c3c3c3 d1d1d1d1d1d1d1d1d1d1d1d1d1d1d1d1\n\
    join A 00000000 00 c1c1c1c1c1c1c1c1c1c1c1c1c1c1c1c1c1c1c1c1c1c1c1c1c1c1c1c1 c3c3c3c3c3c3c3c3c3c3c3c3c3c3c3c3c3c3c3c3c3c3c3c3c3c3c3c3 d1d1d1d1d1d1d1d1d1d1d1d1d1d1d1d1\n\
    join A 00000000 0 c1c1c1c1c1c1c1c1c1c1c1c1c1c1c1c1c1c1c1c1c1c1c1c1c1c1c1c100 c3c3c3c3c3c3c3c3c3c3c3c3c3c3c3c3c3c3c3c3c3c3c3c3c3c3c3c3 d1d1d1d1d1d1d1d1d1d1d1d1d1d1d1d1\n\
    join A 00000000 0 c1c1c1c1c1c1c1c1c1c1c1c1c1c1c1c1c1c1c1c1c1c1c1c1c1c1c1c1 c3c3c3c3c3c3c3c3c3c3c3c3c3c3c3c3c3c3c3c3c3c3c3c3c3c3c3c d1d1d1d1d1d1d1d1d1d1d1d1d1d1d1d1\n\
    join A 00000000 0 c1c1c1c1c1c1c1c1c1c1c1c1c1c1c1c1c1c1c1c1c1c1c1c1c1c1c1c1 c3c3c3c3c3c3c3c3c3c3c3c3c3c3c3c3c3c3c3c3c3c3c3c3c3c3c3c3 d1d1d1d1d1d1d1d1d1d1d1d1d1d1d1d100\n\
    join A 00000000 0 c1c1c1c1c1c1c1c1c1c1c1c1c1c1c1c1c1c1c1c1c1c1c1c1c1c1c1c1 c3c3c3c3c3c3c3c3c3c3c3c3c3c3c3c3c3c3c3c3c3c3c3c3c3c3c3c3\n\
    join A 00000000 0 c1c1c1c1c1c1c1c1c1c1c1c1c1c1c1c1c1c1c1c1c1c1c1c1c1c1c1c1 c3c3c3c3c3c3c3c3c3c3c3c3c3c3c3c3c3c3c3c3c3c3c3c3c3c3c3c3 d1d1d1d1d1d1d1d1d1d1d1d1d1d1d1d1 0\n\
    join A 00000000 0 - - -\n\
    leave\n\
    leave  A\n\
    leave A \n\
    leave A\r\n\
    leave A B\n\
    leave An-n\n\
    grant A 65536 d1d1d1d1d1d1d1d1d1d1d1d1d1d1d1d1\n\
    grant A 01 d1d1d1d1d1d1d1d1d1d1d1d1d1d1d1d1\n\
    grant A 0 d1d1d1d1d1d1d1d1d1d1d1d1d1d1d1\n\
    grant A 0\n\
    rekey A\n\
    rekey A d1d1d1d1d1d1d1d1d1d1d1d1d1d1d1d10\n\
    rekey A d2d2d2d2d2d2d2d2d2d2d2d2d2d2d2d2d2d2d2d2d2d2d2d2d2d2d2d2d2d2d2d200\n\
    send A 64 0 0 -\n\
    send A 95 0 0 -\n\
    send A 128 0 0 -\n\
    send A 01 0 0 -\n\
    send A 0 2 0 -\n\
    send A 0 00 0 -\n\
    send A 0 0 4294967296 -\n\
    send A 0 0 -1 -\n\
    send A 0 0 0 \n\
    send A 0 0 0 0\n\
    send A 0 0 0 0A\n\
    send A 0 0 0\n\
    send A 0 0 0 - 0\n\
    send A 0 0 0 - pad=0\n\
    send A 0 0 0 - pad=256\n\
    send A 0 0 0 - pad=01\n\
    send A 0 0 0 - pad=\n\
    send A 0 0 0 - pad=1 pad=1\n\
    send A 0 0 0 - ext=abcd ext=abcd\n\
    send A 0 0 0 - csrc=00000000 csrc=00000000\n\
    send A 0 0 0 - pad=1 ext=abcd\n\
    send A 0 0 0 - ext=abcd csrc=00000000\n\
    send A 0 0 0 - csrc=\n\
    send A 0 0 0 - csrc=00000000,\n\
    send A 0 0 0 - csrc=0\n\
    send A 0 0 0 - ext=\n\
    send A 0 0 0 - ext=drop\n\
    send A 0 0 0 - ext=abcdef\n\
    send A 0 0 0 - ext=abcd00\n\
    send A 0 0 0 - ext=ABCD\n\
    send A 0 0 0 - pt=0\n\
    rtcp A 80c00000000000\n\
    rtcp A 40c0000000000000\n\
    rtcp A c0c0000000000000\n\
    rtcp A 80bf000000000000\n\
    rtcp A 80e0000000000000\n\
    rtcp A 80c0000000000000 0\n\
    rtcp A\n\
    inject\n\
    inject 0\n\
    inject 0g\n\
    inject 00 00\n\
    inject -\n\
    alter 0 0\n\
    alter 0 0 -\n\
    alter 4294967296 0 00\n\
    alter 0 4294967296 00\n\
    alter 0 00 00\n\
    graft 0 0 0\n\
    graft 0 0 0 0 0\n\
    graft 4294967296 0 0 0\n\
    graft 0 4294967296 0 0\n\
    graft 0 0 4294967296 0\n\
    graft 0 0 0 4294967296\n\
    reseal 0 A\n\
    reseal 0 A 4294967296\n\
    reseal 0 A 0 pt=64\n\
    reseal 0 A 0 shift=65536\n\
    reseal 0 A 0 marker=2\n\
    reseal 0 A 0 ext=dropped\n\
    reseal 0 A 0 ext=ab\n\
    reseal 0 A 0 marker=0 shift=1\n\
    reseal 0 A 0 shift=1 pt=0\n\
    reseal 0 A 0 ext=drop marker=0\n\
    reseal 0 A 0 pt=0 pt=0\n\
    reseal 0 A 0 shift=1 shift=1\n\
    reseal 0 A 0 to=A\n\
    forward A\n\
    forward A 0,\n\
    forward A ,0\n\
    forward A 0,,1\n\
    forward A 00\n\
    forward A 4294967296\n\
    forward A 0 to=\n\
    forward A 0 to=A,\n\
    forward A 0 to=a\n\
    forward A 0 to=A to=A\n\
    forward A 0 to=A pt=0\n\
    forward A 0 pad=1\n\
    deliver 01 A\n\
    deliver +1 A\n\
    deliver 4294967296 A\n\
    deliver  1 A\n\
    deliver 1 A \n\
    deliver 1\n\
    Deliver 1 A\n\
    deliver\t1 A\n\
    conference 0009\x20\n\
    ekt d1d1d1d1d1d1d1d1d1d1d1d1d1d1d1d 020202020202020202020202\n\
    ekt d1d1d1d1d1d1d1d1d1d1d1d1d1d1d1d1 02020202020202020202020\n\
    ekt d1d1d1d1d1d1d1d1d1d1d1d1d1d1d1d1 0A0A0A0A0A0A0A0A0A0A0A0A\n\
    join A 0000000 0 c1c1c1c1c1c1c1c1c1c1c1c1c1c1c1c1c1c1c1c1c1c1c1c1c1c1c1c1 c3c3c3c3c3c3c3c3c3c3c3c3c3c3c3c3c3c3c3c3c3c3c3c3c3c3c3c3 d1d1d1d1d1d1d1d1d1d1d1d1d1d1d1d1\n\
    join A 00000000 01 c1c1c1c1c1c1c1c1c1c1c1c1c1c1c1c1c1c1c1c1c1c1c1c1c1c1c1c1 c3c3c3c3c3c3c3c3c3c3c3c3c3c3c3c3c3c3c3c3c3c3c3c3c3c3c3c3 d1d1d1d1d1d1d1d1d1d1d1d1d1d1d1d1\n\
    join A 00000000 0 C1C1C1C1C1C1C1C1C1C1C1C1C1C1C1C1C1C1C1C1C1C1C1C1C1C1C1C1 c3c3c3c3c3c3c3c3c3c3c3c3c3c3c3c3c3c3c3c3c3c3c3c3c3c3c3c3 d1d1d1d1d1d1d1d1d1d1d1d1d1d1d1d1\n\
    join A 00000000 0 c1c1c1c1c1c1c1c1c1c1c1c1c1c1c1c1c1c1c1c1c1c1c1c1c1c1c1c1 c3c3c3c3c3c3c3c3c3c3c3c3c3c3c3c3c3c3c3c3c3c3c3c3c3c3c3c3 D1D1D1D1D1D1D1D1D1D1D1D1D1D1D1D1\n\
    join A 00000000 0 c1c1c1c1c1c1c1c1c1c1c1c1c1c1c1c1c1c1c1c1c1c1c1c1c1c1c1c1 c3c3c3c3c3c3c3c3c3c3c3c3c3c3c3c3c3c3c3c3c3c3c3c3c3c3c3c3 d1d1d1d1d1d1d1d1d1d1d1d1d1d1d1d\n\
    grant A 0 d1d1d1d1d1d1d1d1d1d1d1d1d1d1d1d11\n\
    grant A 0 D1D1D1D1D1D1D1D1D1D1D1D1D1D1D1D1\n\
    grant A 0 d1d1d1d1d1d1d1d1d1d1d1d1d1d1d1d1 0\n\
    rekey A D1D1D1D1D1D1D1D1D1D1D1D1D1D1D1D1\n\
    rekey A d1d1d1d1d1d1d1d1d1d1d1d1d1d1d1d1 0\n\
    send A 0 0 01 -\n\
    send A 0 0 0 - pad=1 csrc=00000000\n\
    send A 0 0 0 - csrc=0000000\n\
    send A 0 0 0 - csrc=DEADBEEF\n\
    send A 0 0 0 - ext=abc\n\
    send A 0 0 0 - ext=abcd pad=1 0\n\
    rtcp A 80c000000000000\n\
    rtcp A 80C0000000000000\n\
    inject 0F\n\
    alter 00 0 00\n\
    alter 0 0 0\n\
    alter 0 0 0F\n\
    alter 0 0 00 0\n\
    graft 00 0 0 0\n\
    graft 0 00 0 0\n\
    graft 0 0 00 0\n\
    graft 0 0 0 00\n\
    reseal 4294967296 A 0\n\
    reseal 00 A 0\n\
    reseal 0 A 00\n\
    reseal 0 A 0 pt=00\n\
    reseal 0 A 0 shift=01\n\
    reseal 0 A 0 marker=0 marker=0\n\
    reseal 0 A 0 ext=drop ext=drop\n\
    reseal 0 A 0 ext=abc\n\
    reseal 0 A 0 ext=ABCD\n\
    reseal 0 A 0 0\n\
    forward A 0,00\n\
    forward A 0,4294967296\n\
    forward A 0 pt=128\n\
    forward A 0 pt=0 pt=0\n\
    forward A 0 marker=0 shift=0\n\
    forward A 0 shift=65536\n\
    forward A 0 ext=abcd0\n\
    forward A 0 ext=DROP\n\
    forward A 0 0\n\
    deliver 1 A 0\n\
    accept 1 A";

// Lines whose keys are all of the shorter profile's length.
const SHORT_KEYS: &[u8] = b"ekt d1d1d1d1d1d1d1d1d1d1d1d1d1d1d1d1 020202020202020202020202\n\
    join A 00000000 0 c1c1c1c1c1c1c1c1c1c1c1c1c1c1c1c1c1c1c1c1c1c1c1c1c1c1c1c1 c3c3c3c3c3c3c3c3c3c3c3c3c3c3c3c3c3c3c3c3c3c3c3c3c3c3c3c3 d1d1d1d1d1d1d1d1d1d1d1d1d1d1d1d1\n\
    grant A 0 d1d1d1d1d1d1d1d1d1d1d1d1d1d1d1d1\n\
    rekey A d1d1d1d1d1d1d1d1d1d1d1d1d1d1d1d1";

// Lines whose keys are all of the longer profile's length.
const LONG_KEYS: &[u8] =
    b"ekt d2d2d2d2d2d2d2d2d2d2d2d2d2d2d2d2d2d2d2d2d2d2d2d2d2d2d2d2d2d2d2d2 020202020202020202020202\n\
    join A 00000000 0 c2c2c2c2c2c2c2c2c2c2c2c2c2c2c2c2c2c2c2c2c2c2c2c2c2c2c2c2c2c2c2c2c2c2c2c2c2c2c2c2c2c2c2c2 c2c2c2c2c2c2c2c2c2c2c2c2c2c2c2c2c2c2c2c2c2c2c2c2c2c2c2c2c2c2c2c2c2c2c2c2c2c2c2c2c2c2c2c2 d2d2d2d2d2d2d2d2d2d2d2d2d2d2d2d2d2d2d2d2d2d2d2d2d2d2d2d2d2d2d2d2\n\
    grant A 0 d2d2d2d2d2d2d2d2d2d2d2d2d2d2d2d2d2d2d2d2d2d2d2d2d2d2d2d2d2d2d2d2\n\
    rekey A d2d2d2d2d2d2d2d2d2d2d2d2d2d2d2d2d2d2d2d2d2d2d2d2d2d2d2d2d2d2d2d2";

// Lines with keys of both lengths.
const MIXED_KEYS: &[u8] =
    b"join A 00000000 0 c2c2c2c2c2c2c2c2c2c2c2c2c2c2c2c2c2c2c2c2c2c2c2c2c2c2c2c2c2c2c2c2c2c2c2c2c2c2c2c2c2c2c2c2 c3c3c3c3c3c3c3c3c3c3c3c3c3c3c3c3c3c3c3c3c3c3c3c3c3c3c3c3 d1d1d1d1d1d1d1d1d1d1d1d1d1d1d1d1\n\
    join A 00000000 0 c1c1c1c1c1c1c1c1c1c1c1c1c1c1c1c1c1c1c1c1c1c1c1c1c1c1c1c1 c2c2c2c2c2c2c2c2c2c2c2c2c2c2c2c2c2c2c2c2c2c2c2c2c2c2c2c2c2c2c2c2c2c2c2c2c2c2c2c2c2c2c2c2 d1d1d1d1d1d1d1d1d1d1d1d1d1d1d1d1\n\
    join A 00000000 0 c1c1c1c1c1c1c1c1c1c1c1c1c1c1c1c1c1c1c1c1c1c1c1c1c1c1c1c1 c3c3c3c3c3c3c3c3c3c3c3c3c3c3c3c3c3c3c3c3c3c3c3c3c3c3c3c3 d2d2d2d2d2d2d2d2d2d2d2d2d2d2d2d2d2d2d2d2d2d2d2d2d2d2d2d2d2d2d2d2";

// The first of the lines that is read where it shouldn't be, or isn't where it should.
fn first_wrong(lines: &[u8], read: bool) -> Option<&[u8]> {
    for line in lines.split(|octet| *octet == b'\n') {
        if ScriptLine::read(line).is_some() != read {
            return Some(line);
        }
    }
    None
}

#[test]
fn reads_lines(rt: HostRuntime) {
    assert_eq!(rt; first_wrong(SCRIPTS, true), None);
    assert_eq!(rt; first_wrong(GOOD, true), None);
    assert_eq!(rt; first_wrong(BAD, false), None);
}

// Lines that have a part so often, and whether they are read.
const COUNTED: [(&[u8], &[u8], u32, &[u8], bool); 20] = [
    (b"send A 0 0 0 ", b"5a", 1200, b"", true),
    (b"send A 0 0 0 ", b"5a", 1201, b"", false),
    (b"send A 0 0 0 ", b"5a", 1199, b" pad=1", true),
    (b"send A 0 0 0 ", b"5a", 1199, b" pad=2", false),
    (b"send A 0 0 0 - ext=bede", b"00000000", 30, b"", true),
    (b"send A 0 0 0 - ext=bede", b"00000000", 31, b"", false),
    (b"send A 0 0 0 - csrc=00000000", b",ffffffff", 14, b"", true),
    (
        b"send A 0 0 0 - csrc=00000000",
        b",ffffffff",
        15,
        b"",
        false,
    ),
    (b"rtcp A 80c9", b"00", 6, b"", true),
    (b"rtcp A 80c9", b"00", 5, b"", false),
    (b"rtcp A 80c9", b"00", 1198, b"", true),
    (b"rtcp A 80c9", b"00", 1199, b"", false),
    (b"inject ", b"00", 1500, b"", true),
    (b"inject ", b"00", 1501, b"", false),
    (b"alter 1 0 ", b"00", 3000, b"", true),
    (b"reseal 1 A 0 ext=bede", b"00000000", 31, b"", false),
    (b"forward A 1", b",1", 31, b"", true),
    (b"forward A 1", b",1", 32, b"", false),
    (b"forward A 1 to=A", b",A", 63, b"", true),
    (b"forward A 1 to=A", b",A", 64, b"", false),
];

// Whether the line with the part standing so often is read.
fn is_read(
    alloc: Global,
    before: &[u8],
    part: &[u8],
    count: u32,
    behind: &[u8],
) -> Result<bool, AllocError> {
    let mut line = Vec::from_slice(alloc, before)?;
    for _ in 0..count {
        line.extend_from_slice(part)?;
    }
    line.extend_from_slice(behind)?;
    Ok(ScriptLine::read(&line).is_some())
}

#[test]
fn bounds_lengths(rt: HostRuntime) -> Result<(), Fail> {
    for (before, part, count, behind, want) in &COUNTED {
        let read = is_read(rt.alloc(), before, part, *count, behind)?;
        assert!(rt; read == *want, "{:?}", before);
    }
    Ok(())
}

// Whether each of the lines is read, and whether it fits the profile.
fn all_fit(lines: &[u8], profile: Profile, want: bool) -> bool {
    for line in lines.split(|octet| *octet == b'\n') {
        let Some(script) = ScriptLine::read(line) else {
            return false;
        };
        if script.fits(profile) != want {
            return false;
        }
    }
    true
}

#[test]
fn fits_profiles(rt: HostRuntime) {
    assert!(rt; all_fit(SHORT_KEYS, Profile::Aes128, true));
    assert!(rt; all_fit(SHORT_KEYS, Profile::Aes256, false));
    assert!(rt; all_fit(LONG_KEYS, Profile::Aes128, false));
    assert!(rt; all_fit(LONG_KEYS, Profile::Aes256, true));
    assert!(rt; all_fit(MIXED_KEYS, Profile::Aes128, false));
    assert!(rt; all_fit(MIXED_KEYS, Profile::Aes256, false));
    assert!(rt; all_fit(b"leave A", Profile::Aes256, true));
}

// What some of the lines say.
fn described(alloc: Global, line: &[u8]) -> Result<String, AllocError> {
    let Some(script) = ScriptLine::read(line) else {
        return String::from_str(alloc, "none");
    };
    match script {
        ScriptLine::Send {
            pt,
            marker,
            timestamp,
            payload,
            ..
        } => {
            let len = payload.len();
            format!(in alloc; "{pt} {marker} {timestamp} of {len}")
        }
        ScriptLine::Graft {
            first,
            front,
            second,
            back,
        } => format!(in alloc; "{first} {front} {second} {back}"),
        _ => String::from_str(alloc, "other"),
    }
}

#[test]
fn says_what_lines_say(rt: HostRuntime) -> Result<(), Fail> {
    let alloc = rt.alloc();
    let sent = described(alloc, b"send Ann 127 1 4294967295 0102 pad=7")?;
    assert_eq!(rt; sent.as_str(), "127 true 4294967295 of 2");
    let grafted = described(alloc, b"graft 1 2 3 4")?;
    assert_eq!(rt; grafted.as_str(), "1 2 3 4");
    assert_eq!(rt; Reason::Datagram.text(), b"datagram".as_slice());
    Ok(())
}
