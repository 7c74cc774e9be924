/// A shop's files, as stitch lists: each has something that is a place, or just isn't.
pub const LISTS: &[(&str, &str)] = &[
    (
        "tied.lst",
        "stitch-list 1\nlabel []\nblock 5\nneedle 0 0\nneedle 5 0\nneedle 0 0\nneedle 5 0\nneedle 30 0\nneedle 60 0\nneedle 55 0\nneedle 60 0\nneedle 55 0\ntrim\nend\n",
    ),
    (
        "short.lst",
        "stitch-list 1\nlabel []\nblock 5\nneedle 0 0\nneedle 3 0\nneedle 5 0\nend\n",
    ),
    (
        "long.lst",
        "stitch-list 1\nlabel []\nblock 5\nneedle 0 0\nneedle 70 0\nneedle 0 71\nend\n",
    ),
    (
        "slanted.lst",
        "stitch-list 1\nlabel []\nblock 5\nneedle 0 0\nneedle 50 50\nneedle 1 -1\nend\n",
    ),
    (
        "float.lst",
        "stitch-list 1\nlabel []\nblock 5\nneedle 0 0\nfloat 60 0\nfloat 121 0\ntrim\nneedle 500 0\nend\n",
    ),
    (
        "near.lst",
        "stitch-list 1\nlabel []\nblock 5\nneedle 0 0\nfloat 1 0\nend\n",
    ),
    (
        "begun.lst",
        "stitch-list 1\nlabel []\nblock 5\nneedle 0 0\nneedle 10 0\nneedle 0 0\nneedle 10 0\nneedle 30 0\nneedle 60 0\nneedle 90 0\nneedle 120 0\nneedle 150 0\nend\n",
    ),
    (
        "ended.lst",
        "stitch-list 1\nlabel []\nblock 5\nneedle 0 0\nneedle 30 0\nneedle 60 0\nneedle 90 0\nneedle 120 0\nneedle 150 0\nneedle 160 0\nneedle 150 0\nneedle 160 0\nend\n",
    ),
    (
        "wide.lst",
        "stitch-list 1\nlabel []\nblock 5\nneedle 0 0\nneedle 7 0\nneedle 14 0\nneedle 21 0\nend\n",
    ),
    (
        "late.lst",
        "stitch-list 1\nlabel []\nblock 5\nneedle 0 0\nneedle 30 0\nneedle 60 0\nneedle 90 0\nneedle 120 0\nneedle 125 0\nneedle 120 0\nneedle 150 0\nneedle 180 0\nneedle 210 0\nneedle 240 0\nend\n",
    ),
    (
        "dot.lst",
        "stitch-list 1\nlabel []\nblock 5\nneedle 0 0\ntrim\nneedle 90 90\nend\n",
    ),
    (
        "hole.lst",
        "stitch-list 1\nlabel []\nblock 5\nneedle 0 0\nneedle 30 0\nneedle 1 1\nneedle 60 0\nneedle -2 0\nneedle 90 0\nneedle 0 2\nend\n",
    ),
    (
        "two.lst",
        "stitch-list 1\nlabel []\nblock 5\nneedle 0 0\nneedle 30 0\nneedle 2 0\nneedle 33 0\nneedle 4 0\nneedle 36 0\nend\n",
    ),
    (
        "empty.lst",
        "stitch-list 1\nlabel []\nblock 5\nneedle 0 0\nblock 6\nblock 7\nneedle 9 0\nend\n",
    ),
    (
        "last.lst",
        "stitch-list 1\nlabel []\nblock 5\nneedle 0 0\nblock 6\nend\n",
    ),
    ("none.lst", "stitch-list 1\nlabel []\nblock 5\nend\n"),
    (
        "none2.lst",
        "stitch-list 1\nlabel []\nblock 5\nblock 6\nend\n",
    ),
    (
        "three.lst",
        "stitch-list 1\nlabel []\nblock 37\nneedle -20 5\nneedle 10 5\ntrim\nblock 1\nneedle 0 0\nneedle 0 40\nblock 255\nneedle 7 7\nend\n",
    ),
    (
        "same.lst",
        "stitch-list 1\nlabel [other]\nblock 37\nneedle -20 5\nneedle 10 5\ntrim\nblock 1\nneedle 0 0\nneedle 0 40\nblock 255\nneedle 7 7\nend\n",
    ),
    (
        "point.lst",
        "stitch-list 1\nlabel []\nblock 37\nneedle -20 5\nneedle 10 6\ntrim\nblock 1\nneedle 0 0\nneedle 0 40\nblock 255\nneedle 7 7\nend\n",
    ),
    (
        "carried.lst",
        "stitch-list 1\nlabel []\nblock 37\nneedle -20 5\nfloat 10 5\ntrim\nblock 1\nneedle 0 0\nneedle 0 40\nblock 255\nneedle 7 7\nend\n",
    ),
    (
        "cut.lst",
        "stitch-list 1\nlabel []\nblock 37\nneedle -20 5\ntrim\nblock 1\nneedle 0 0\nneedle 0 40\nblock 255\nneedle 7 7\nend\n",
    ),
    (
        "fewer.lst",
        "stitch-list 1\nlabel []\nblock 37\nneedle -20 5\nneedle 10 5\ntrim\nblock 1\nneedle 0 0\nneedle 0 40\nend\n",
    ),
    (
        "colours.lst",
        "stitch-list 1\nlabel []\nblock 37\nneedle -20 5\nneedle 10 5\ntrim\nblock 2\nneedle 0 0\nneedle 0 40\nblock 255\nneedle 7 7\nend\n",
    ),
    (
        "shop.lst",
        "stitch-list 1\nlabel []\nblock 5\nneedle 0 0\nneedle 30 0\nneedle 60 0\ntrim\nneedle 99 0\nfloat 160 0\nblock 7\nblock 9\nneedle 0 12\nneedle 0 14\nneedle 0 40\nend\n",
    ),
    (
        "single.lst",
        "stitch-list 1\nlabel []\nblock 5\nneedle 0 0\nneedle 30 0\nneedle 60 0\ntrim\nneedle 99 0\nend\n",
    ),
    (
        "close.lst",
        "stitch-list 1\nlabel []\nblock 5\nneedle 0 0\nneedle 2 0\nneedle 4 0\nneedle 5 0\nblock 7\nneedle 5 0\nend\n",
    ),
    (
        "hollow.lst",
        "stitch-list 1\nlabel []\nblock 7\nblock 9\nneedle 3 0\nblock 3\nblock 4\nneedle 4 0\nblock 5\nend\n",
    ),
    (
        "far.lst",
        "stitch-list 1\nlabel []\nblock 5\nneedle 29900 0\nneedle 30000 10\nend\n",
    ),
    (
        "bad.lst",
        "stitch-list 1\nlabel []\nblock 5\nnedle 0 0\nend\n",
    ),
];

/// A frame-out before a stop, as a digitiser's program writes it, and a file that is cut off.
pub const FILES: &[(&str, &[u8])] = &[
    (
        "out.exp",
        b"\x00\x00\x14\x00\x80\x04\x64\x00\x80\x01\x00\x00\x80\x04\x9c\x00\x00\x00",
    ),
    ("cut.dst", b"LA:"),
];
