//! Tests of documents for print: of what a device that is full receives, and of the colours of PDF documents. The documents
//! that are expected were made by a program in Python that shares no code with `qr_documents`. The rows of the library have
//! whole documents in black and white.

ghost use Rattle.std.specs.Prelude.{◌≡◌, IfOk};

use qr_devices::{Faults, Trial};
use qr_documents::{Colours, Document, DocumentSettings, write_document};
use qr_matrix::{Matrix, matrix_of_bytes};
use std::alloc::Global;
use std::test::Fail;

// The first 100 bytes of documents of one square, with a margin of one module. A module is 254 micrometres wide.
static ONE_SVG: &[u8] = b"\
<?xml version=\"1.0\" encoding=\"UTF-8\"?>\n\
<svg xmlns=\"http://www.w3.org/2000/svg\" version=\"1.1\" width=\"";

static ONE_EPS: &[u8] = b"\
%!PS-Adobe-3.0 EPSF-3.0\n\
%%BoundingBox: 0 0 4 4\n\
%%HiResBoundingBox: 0 0 3.600000 3.600000\n\
%%LanguageL";

static ONE_PDF: &[u8] = b"\
%PDF-1.4\n\
1 0 obj\n\
<</Type/Catalog/Pages 2 0 R>>\n\
endobj\n\
2 0 obj\n\
<</Type/Pages/Kids[3 0 R]/Count 1>>\n\
en";

// Whole documents of one square, with a margin of one module. The dark modules have the colour 0x1F3880, and the light ones
// 0xFFF2CC or none. A module is 254 micrometres wide.
static ON_YELLOW: &[u8] = b"\
%PDF-1.4\n\
1 0 obj\n\
<</Type/Catalog/Pages 2 0 R>>\n\
endobj\n\
2 0 obj\n\
<</Type/Pages/Kids[3 0 R]/Count 1>>\n\
endobj\n\
3 0 obj\n\
<</Type/Page/Parent 2 0 R/MediaBox[0 0 3.600000 3.600000]/Resources<<>>/Contents 4 0 R>>\n\
endobj\n\
4 0 obj\n\
<</Length 119>>\n\
stream\n\
0.720000 0 0 0.720000 0 0 cm\n\
1.000 0.949 0.800 rg 0 0 5 5 re f\n\
0.122 0.220 0.502 rg\n\
2 3 2 1 re\n\
1 2 1 1 re\n\
1 1 3 1 re\n\
f\n\
endstream\n\
endobj\n\
xref\n\
0 5\n\
0000000000 65535 f \n\
0000000009 00000 n \n\
0000000054 00000 n \n\
0000000105 00000 n \n\
0000000209 00000 n \n\
trailer\n\
<</Size 5/Root 1 0 R>>\n\
startxref\n\
376\n\
%%EOF\n";

static ON_NOTHING: &[u8] = b"\
%PDF-1.4\n\
1 0 obj\n\
<</Type/Catalog/Pages 2 0 R>>\n\
endobj\n\
2 0 obj\n\
<</Type/Pages/Kids[3 0 R]/Count 1>>\n\
endobj\n\
3 0 obj\n\
<</Type/Page/Parent 2 0 R/MediaBox[0 0 3.600000 3.600000]/Resources<<>>/Contents 4 0 R>>\n\
endobj\n\
4 0 obj\n\
<</Length 85>>\n\
stream\n\
0.720000 0 0 0.720000 0 0 cm\n\
0.122 0.220 0.502 rg\n\
2 3 2 1 re\n\
1 2 1 1 re\n\
1 1 3 1 re\n\
f\n\
endstream\n\
endobj\n\
xref\n\
0 5\n\
0000000000 65535 f \n\
0000000009 00000 n \n\
0000000054 00000 n \n\
0000000105 00000 n \n\
0000000209 00000 n \n\
trailer\n\
<</Size 5/Root 1 0 R>>\n\
startxref\n\
341\n\
%%EOF\n";

// Three by three modules, of which no two rows or columns are the same. 1 is dark.
static FIRST: [u8; 9] = [0, 1, 1, 1, 0, 0, 1, 1, 1];

fn square(alloc: Global, modules: &[u8; 9]) -> Result<Matrix, Fail>
    ensures { IfOk result (λ m. m.side ≡ 3) }
{
    Ok(matrix_of_bytes(alloc, modules, 3)?)
}

#[test]
fn a_device_that_is_full_stops_the_document(rt: HostRuntime) -> Result<(), Fail> {
    for (format, wanted) in [
        (Document::Svg, ONE_SVG),
        (Document::Eps, ONE_EPS),
        (Document::Pdf, ONE_PDF),
    ] {
        let settings = DocumentSettings {
            format,
            margin: 1,
            micrometres: 254,
            colours: None,
        };
        let squares = [square(rt.alloc(), &FIRST)?];
        let mut out = Trial::writer(rt.alloc(), 100, Faults::NONE)?;
        let result = write_document(&squares, &settings, &mut out);
        assert_eq!(rt; result.is_err(), true);
        assert_eq!(rt; out.bytes(), wanted);
    }
    Ok(())
}

#[test]
fn a_pdf_document_has_the_colours_that_were_asked_for(rt: HostRuntime) -> Result<(), Fail> {
    for (light, wanted) in [(Some(0xFF_F2CC), ON_YELLOW), (None, ON_NOTHING)] {
        let settings = DocumentSettings {
            format: Document::Pdf,
            margin: 1,
            micrometres: 254,
            colours: Some(Colours {
                dark: 0x1F_3880,
                light,
            }),
        };
        let squares = [square(rt.alloc(), &FIRST)?];
        let mut out = Trial::writer(rt.alloc(), 1000, Faults::NONE)?;
        let result = write_document(&squares, &settings, &mut out);
        assert_eq!(rt; result.is_ok(), true);
        assert_eq!(rt; out.bytes(), wanted);
    }
    Ok(())
}
