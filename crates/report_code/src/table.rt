// Table 5.2.2.6.4-1: the basis of the (32, O) code, a mask for each row.
ghost use Rattle.std.specs.Prelude.{◌≡◌};
ghost use Rattle.report_code.specs.Words.{row_masks};

// Bit n of row i is M_i,n.
const ROWS: [u32; 32] = [
    1027, 1543, 1865, 1293, 1167, 1491, 1877, 1433, 1691, 1629, 1765, 1383, 1961, 1707, 1201, 1779,
    631, 313, 251, 97, 1093, 1547, 1425, 1815, 991, 1251, 813, 943, 373, 509, 2047, 1,
];

// A constant array is copied whole where it is read: a loop asks for it once.
pub(crate) fn rows() -> [u32; 32]
    ensures { result ≡ row_masks }
{
    ROWS
}
