//! The first script that a reader of the desk's manual meets.

pub const FIRST: &[u8] = b"\
    rule\n\
    @RULE X\n\
    @TABLE\n\
    n_states:2\n\
    neighborhood:oneDimensional\n\
    symmetries:none\n\
    0,1,0,1\n\
    0,0,1,1\n\
    1,0,0,0\n\
    1,1,1,0\n\
    end\n\
    set 0 0 1\n\
    mark 2 counts\n\
    settle\n\
    show 1\n\
    quit\n";

pub const FIRST_REPLIES: &[u8] = b"\
    ok 1\n\
    ok 2\n\
    ok 3 bookmark 1\n\
    settled\n\
    bookmark 1 current 4\n\
    1 2\n\
    bye\n";
