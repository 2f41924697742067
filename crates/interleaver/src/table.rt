// Table 5.1.3-3: the block sizes K and the parameters f1 and f2 of the turbo code internal interleaver, row by row.
ghost use Rattle.std.specs.Prelude.{◌≡◌};
ghost use Rattle.interleaver.specs.Table.{size_at, f1_at, f2_at, has_size, found_for};

// How many rows the table has.
pub const ROWS: usize = 188;

// K, f1 and f2 of a row.
#[derive(Clone, Copy)]
struct Row(u16, u16, u16);

static TABLE: [Row; ROWS] = [
    Row(40, 3, 10),
    Row(48, 7, 12),
    Row(56, 19, 42),
    Row(64, 7, 16),
    Row(72, 7, 18),
    Row(80, 11, 20),
    Row(88, 5, 22),
    Row(96, 11, 24),
    Row(104, 7, 26),
    Row(112, 41, 84),
    Row(120, 103, 90),
    Row(128, 15, 32),
    Row(136, 9, 34),
    Row(144, 17, 108),
    Row(152, 9, 38),
    Row(160, 21, 120),
    Row(168, 101, 84),
    Row(176, 21, 44),
    Row(184, 57, 46),
    Row(192, 23, 48),
    Row(200, 13, 50),
    Row(208, 27, 52),
    Row(216, 11, 36),
    Row(224, 27, 56),
    Row(232, 85, 58),
    Row(240, 29, 60),
    Row(248, 33, 62),
    Row(256, 15, 32),
    Row(264, 17, 198),
    Row(272, 33, 68),
    Row(280, 103, 210),
    Row(288, 19, 36),
    Row(296, 19, 74),
    Row(304, 37, 76),
    Row(312, 19, 78),
    Row(320, 21, 120),
    Row(328, 21, 82),
    Row(336, 115, 84),
    Row(344, 193, 86),
    Row(352, 21, 44),
    Row(360, 133, 90),
    Row(368, 81, 46),
    Row(376, 45, 94),
    Row(384, 23, 48),
    Row(392, 243, 98),
    Row(400, 151, 40),
    Row(408, 155, 102),
    Row(416, 25, 52),
    Row(424, 51, 106),
    Row(432, 47, 72),
    Row(440, 91, 110),
    Row(448, 29, 168),
    Row(456, 29, 114),
    Row(464, 247, 58),
    Row(472, 29, 118),
    Row(480, 89, 180),
    Row(488, 91, 122),
    Row(496, 157, 62),
    Row(504, 55, 84),
    Row(512, 31, 64),
    Row(528, 17, 66),
    Row(544, 35, 68),
    Row(560, 227, 420),
    Row(576, 65, 96),
    Row(592, 19, 74),
    Row(608, 37, 76),
    Row(624, 41, 234),
    Row(640, 39, 80),
    Row(656, 185, 82),
    Row(672, 43, 252),
    Row(688, 21, 86),
    Row(704, 155, 44),
    Row(720, 79, 120),
    Row(736, 139, 92),
    Row(752, 23, 94),
    Row(768, 217, 48),
    Row(784, 25, 98),
    Row(800, 17, 80),
    Row(816, 127, 102),
    Row(832, 25, 52),
    Row(848, 239, 106),
    Row(864, 17, 48),
    Row(880, 137, 110),
    Row(896, 215, 112),
    Row(912, 29, 114),
    Row(928, 15, 58),
    Row(944, 147, 118),
    Row(960, 29, 60),
    Row(976, 59, 122),
    Row(992, 65, 124),
    Row(1008, 55, 84),
    Row(1024, 31, 64),
    Row(1056, 17, 66),
    Row(1088, 171, 204),
    Row(1120, 67, 140),
    Row(1152, 35, 72),
    Row(1184, 19, 74),
    Row(1216, 39, 76),
    Row(1248, 19, 78),
    Row(1280, 199, 240),
    Row(1312, 21, 82),
    Row(1344, 211, 252),
    Row(1376, 21, 86),
    Row(1408, 43, 88),
    Row(1440, 149, 60),
    Row(1472, 45, 92),
    Row(1504, 49, 846),
    Row(1536, 71, 48),
    Row(1568, 13, 28),
    Row(1600, 17, 80),
    Row(1632, 25, 102),
    Row(1664, 183, 104),
    Row(1696, 55, 954),
    Row(1728, 127, 96),
    Row(1760, 27, 110),
    Row(1792, 29, 112),
    Row(1824, 29, 114),
    Row(1856, 57, 116),
    Row(1888, 45, 354),
    Row(1920, 31, 120),
    Row(1952, 59, 610),
    Row(1984, 185, 124),
    Row(2016, 113, 420),
    Row(2048, 31, 64),
    Row(2112, 17, 66),
    Row(2176, 171, 136),
    Row(2240, 209, 420),
    Row(2304, 253, 216),
    Row(2368, 367, 444),
    Row(2432, 265, 456),
    Row(2496, 181, 468),
    Row(2560, 39, 80),
    Row(2624, 27, 164),
    Row(2688, 127, 504),
    Row(2752, 143, 172),
    Row(2816, 43, 88),
    Row(2880, 29, 300),
    Row(2944, 45, 92),
    Row(3008, 157, 188),
    Row(3072, 47, 96),
    Row(3136, 13, 28),
    Row(3200, 111, 240),
    Row(3264, 443, 204),
    Row(3328, 51, 104),
    Row(3392, 51, 212),
    Row(3456, 451, 192),
    Row(3520, 257, 220),
    Row(3584, 57, 336),
    Row(3648, 313, 228),
    Row(3712, 271, 232),
    Row(3776, 179, 236),
    Row(3840, 331, 120),
    Row(3904, 363, 244),
    Row(3968, 375, 248),
    Row(4032, 127, 168),
    Row(4096, 31, 64),
    Row(4160, 33, 130),
    Row(4224, 43, 264),
    Row(4288, 33, 134),
    Row(4352, 477, 408),
    Row(4416, 35, 138),
    Row(4480, 233, 280),
    Row(4544, 357, 142),
    Row(4608, 337, 480),
    Row(4672, 37, 146),
    Row(4736, 71, 444),
    Row(4800, 71, 120),
    Row(4864, 37, 152),
    Row(4928, 39, 462),
    Row(4992, 127, 234),
    Row(5056, 39, 158),
    Row(5120, 39, 80),
    Row(5184, 31, 96),
    Row(5248, 113, 902),
    Row(5312, 41, 166),
    Row(5376, 251, 336),
    Row(5440, 43, 170),
    Row(5504, 21, 86),
    Row(5568, 43, 174),
    Row(5632, 45, 176),
    Row(5696, 45, 178),
    Row(5760, 161, 120),
    Row(5824, 89, 182),
    Row(5888, 323, 184),
    Row(5952, 47, 186),
    Row(6016, 23, 94),
    Row(6080, 47, 190),
    Row(6144, 263, 480),
];

// A row that was searched for, counted from 0, and its K.
#[derive(Clone, Copy)]
pub struct Found {
    pub row: usize,
    pub size: usize,
}

// K of a row; 0 past the table.
pub fn size_at(row: usize) -> usize
    ensures { result ≡ size_at row }
{
    if row < ROWS { TABLE[row].0 as usize } else { 0 }
}

// f1 of a row; 0 past the table.
pub fn f1_at(row: usize) -> usize
    ensures { result ≡ f1_at row }
{
    if row < ROWS { TABLE[row].1 as usize } else { 0 }
}

// f2 of a row; 0 past the table.
pub fn f2_at(row: usize) -> usize
    ensures { result ≡ f2_at row }
{
    if row < ROWS { TABLE[row].2 as usize } else { 0 }
}

// Whether the table has such a row, and K is its size.
#[tactic(auto, unfolding(crate::specs::Table::has_size))]
pub fn has_size(row: usize, k: usize) -> bool
    ensures { result ≡ has_size row k }
{
    row < ROWS && k == size_at(row)
}

// The first row whose K is at least `least`, where there is one.
pub fn row_for(least: usize) -> Option<Found>
    ensures { result ≡ found_for least }
{
    let row = TABLE.partition_point(|row| (row.0 as usize) < least);
    if row < ROWS {
        Some(Found {
            row,
            size: TABLE[row].0 as usize,
        })
    } else {
        None
    }
}
