// The cells of four bits, an entry for each four. The rule is specs/Stamp.antt's, and is proved at every entry.
// Four bits, a byte for each.
pub const FOURS: [u32; 16] = [
    0, 1, 256, 257, 65536, 65537, 65792, 65793, 16777216, 16777217, 16777472, 16777473, 16842752,
    16842753, 16843008, 16843009,
];
