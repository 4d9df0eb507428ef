// The front of the picture: the style sheet, the hatching and the title, the same for all tanks.
ghost use Rattle.std.specs.Prelude.{◌≤◌, length};
ghost use Rattle.answers.specs.Waiting.{Adds, piece_room};
ghost use Rattle.picture.specs.Heading.{colours_say, shapes_say, fonts_say, style_says, ground_says, title_says, heading_says};

use pen::say;

// The colours of the twelve keys, and the grey of the others.
fn colours(out: &mut [u8], at: usize) -> usize
    requires { piece_room ≤ length out.old }
    ensures { Adds out.old at colours_say result out.new }
{
    let a = say(
        out,
        at,
        b".k0{fill:#3b76b8}.k1{fill:#e39b2d}.k2{fill:#3d9970}.k3{fill:#c8506b}\n",
    );
    let b = say(
        out,
        a,
        b".k4{fill:#56b4e0}.k5{fill:#8465b0}.k6{fill:#b6a93a}.k7{fill:#7a4b2a}\n",
    );
    let c = say(
        out,
        b,
        b".k8{fill:#d983b5}.k9{fill:#2f5d62}.k10{fill:#93b04c}.k11{fill:#a33b2e}\n",
    );
    say(out, c, b".k12{fill:#9aa1ab}\n")
}

// Bands, hatching and lines.
fn shapes(out: &mut [u8], at: usize) -> usize
    requires { piece_room ≤ length out.old }
    ensures { Adds out.old at shapes_say result out.new }
{
    let a = say(
        out,
        at,
        b".frame{fill:#eef0f3}.held{fill:url(#hatch)}.gap{fill:#ffffff}.tick{stroke:#9aa1ab;fill:none}\n",
    );
    say(
        out,
        a,
        b".break{stroke:#6b7480;stroke-width:1.5;fill:none}\n",
    )
}

// Words and numbers.
fn fonts(out: &mut [u8], at: usize) -> usize
    requires { piece_room ≤ length out.old }
    ensures { Adds out.old at fonts_say result out.new }
{
    let a = say(
        out,
        at,
        b"text{fill:#27313c}.title{font-size:22px;font-weight:bold}.name{font-size:15px;font-weight:bold}\n",
    );
    let b = say(
        out,
        a,
        b".key{font-size:13px}.small{font-size:11px;fill:#5b6470}.tiny{font-size:10px;fill:#5b6470;text-anchor:end}\n",
    );
    say(
        out,
        b,
        b".edge{font-size:11px;fill:#5b6470;text-anchor:middle}.none{font-size:12px;fill:#9aa1ab;text-anchor:middle}\n",
    )
}

// The style sheet.
fn style(out: &mut [u8], at: usize) -> usize
    requires { piece_room ≤ length out.old }
    ensures { Adds out.old at style_says result out.new }
{
    let a = say(out, at, b"<style>\n");
    let b = colours(out, a);
    let c = shapes(out, b);
    let d = fonts(out, c);
    say(out, d, b"</style>\n")
}

// The hatching, and a white ground.
fn ground(out: &mut [u8], at: usize) -> usize
    requires { piece_room ≤ length out.old }
    ensures { Adds out.old at ground_says result out.new }
{
    let a = say(
        out,
        at,
        b"<defs><pattern id='hatch' width='8' height='8' patternUnits='userSpaceOnUse' patternTransform='rotate(45)'>",
    );
    let b = say(
        out,
        a,
        b"<path d='M2 0V8' stroke='#27313c' stroke-width='1.6' stroke-opacity='0.6'/></pattern></defs>\n",
    );
    say(
        out,
        b,
        b"<rect width='1200' height='960' fill='#ffffff'/>\n",
    )
}

// The title, and how the bands are to be read.
fn title(out: &mut [u8], at: usize) -> usize
    requires { piece_room ≤ length out.old }
    ensures { Adds out.old at title_says result out.new }
{
    let a = say(
        out,
        at,
        b"<text class='title' x='30' y='44'>The eight tanks</text>\n<text class='small' x='30' y='66'>",
    );
    let b = say(
        out,
        a,
        b"Each band has its own scale: position 0 at its left edge, the end of the marked part at its right edge. ",
    );
    say(
        out,
        b,
        b"Behind a break the tank goes on without marks, up to its length.</text>\n",
    )
}

// All of it.
pub fn heading(out: &mut [u8], at: usize) -> usize
    requires { piece_room ≤ length out.old }
    ensures { Adds out.old at heading_says result out.new }
{
    let a = say(
        out,
        at,
        b"<svg xmlns='http://www.w3.org/2000/svg' width='1200' height='960' viewBox='0 0 1200 960' font-family='DejaVu Sans, Verdana, Helvetica, sans-serif'>\n",
    );
    let b = style(out, a);
    let c = ground(out, b);
    title(out, c)
}
