// Chroma format: the rules of fmt.rs about it that the port takes, the door from a number, and the kinds of places. Depth is in
// module depth. Assumes nothing.
#![tactic(auto)]

pub mod depth;

ghost use Rattle.std.specs.Prelude.{◌≡◌, ◌*◌, ◌/◌, ◌≤◌};
ghost use Rattle.fmt.specs.Fmt.{sub_width, sub_height, format_from, Subsampling};
ghost use Rattle.fmt.specs.Places.{saturated, luma_row, luma_col, chroma_row, chroma_col};

#[derive(Clone, Copy, Debug, PartialEq, Eq)]
pub enum ChromaFormat {
    Monochrome,
    Yuv420,
    Yuv422,
    Yuv444,
}

impl ChromaFormat {
    // The door from a chroma_format_idc. It refuses nothing: only the chroma gather gives a number for an unknown format.
    pub fn from_idc(idc: u32) -> Option<ChromaFormat>
        ensures { result ≡ format_from idc }
    {
        match idc {
            0 => Some(ChromaFormat::Monochrome),
            1 => Some(ChromaFormat::Yuv420),
            2 => Some(ChromaFormat::Yuv422),
            3 => Some(ChromaFormat::Yuv444),
            _ => None,
        }
    }

    // Luma columns to a chroma column.
    pub fn sub_w(self) -> usize
        ensures { result ≡ sub_width self }
    {
        match self {
            ChromaFormat::Yuv420 => 2,
            ChromaFormat::Yuv422 => 2,
            ChromaFormat::Yuv444 => 1,
            ChromaFormat::Monochrome => 1,
        }
    }

    // Luma rows to a chroma row.
    pub fn sub_h(self) -> usize
        ensures { result ≡ sub_height self }
    {
        match self {
            ChromaFormat::Yuv420 => 2,
            ChromaFormat::Yuv422 => 1,
            ChromaFormat::Yuv444 => 1,
            ChromaFormat::Monochrome => 1,
        }
    }
}

// Rows and columns of luma samples and of chroma samples are kinds of their own: one passed for the other does not compile,
// and the only way from one to the other is a format's subsampling, by the four functions below. The sides of a chroma plane
// go by them too: they are the first row and the first column past it.
#[derive(Clone, Copy, Debug, PartialEq, Eq)]
pub struct LumaRow(pub u32);

#[derive(Clone, Copy, Debug, PartialEq, Eq)]
pub struct LumaCol(pub u32);

#[derive(Clone, Copy, Debug, PartialEq, Eq)]
pub struct ChromaRow(pub u32);

#[derive(Clone, Copy, Debug, PartialEq, Eq)]
pub struct ChromaCol(pub u32);

// A number times the subsampling, or the largest u32, which is outside every picture.
fn times(x: u32, sub: usize) -> u32
    requires { sub ≤ 2 }
    ensures { result ≡ saturated (sub * x) }
{
    let wide = sub * (x as usize);
    if wide > 4294967295 {
        return 4294967295;
    }
    wide as u32
}

// A number over the subsampling, rounded down. By the two cases: a division by a variable takes longer than all the rest of a conversion.
fn over(x: u32, sub: usize) -> u32
    requires { Subsampling sub }
    ensures { result ≡ x / sub }
{
    if sub == 2 { x / 2 } else { x }
}

impl ChromaFormat {
    // The luma row on which a chroma row lies.
    pub fn luma_row(self, row: ChromaRow) -> LumaRow
        ensures { result ≡ luma_row self row }
    {
        LumaRow(times(row.0, self.sub_h()))
    }

    // The luma column on which a chroma column lies.
    pub fn luma_col(self, col: ChromaCol) -> LumaCol
        ensures { result ≡ luma_col self col }
    {
        LumaCol(times(col.0, self.sub_w()))
    }

    // The chroma row that holds a luma row.
    pub fn chroma_row(self, row: LumaRow) -> ChromaRow
        ensures { result ≡ chroma_row self row }
    {
        ChromaRow(over(row.0, self.sub_h()))
    }

    // The chroma column that holds a luma column.
    pub fn chroma_col(self, col: LumaCol) -> ChromaCol
        ensures { result ≡ chroma_col self col }
    {
        ChromaCol(over(col.0, self.sub_w()))
    }
}
