// One pass over a line of the file: where it ends, whether question 2 holds, and where its first five tabs stand.
#![tactic(auto)]

ghost use Rattle.std.specs.Prelude.{◌≡◌, ◌&&◌, leb};
ghost use Rattle.scan.specs.Positions.{line_at};

// The first five tabs of a line: how many there are, and where they stand.
// Kept: theorem `every_line_scanned` speaks of this count and of all five places, and memory is fixed.
#[derive(Clone, Copy)]
pub struct Tabs {
    pub count: usize,
    pub place: [usize; 5],
}

// A line: whether question 2 has the answer yes and, if so, where its byte 10 stands, and its first five tabs.
// Kept: theorem `every_line_scanned` says of a line with a no that its places are zeros, so they stand beside the answer.
#[derive(Clone, Copy)]
pub struct Scanned {
    pub good: bool,
    pub end: usize,
    pub tabs: Tabs,
}

// Bytes 33 to 126.
fn is_plain(b: u8) -> bool
    ensures { result ≡ leb 33 b && leb b 126 }
{
    33 <= b && b <= 126
}

// The line that begins at `at`. Each of its bytes is read once.
pub fn line_at(s: &[u8], at: usize) -> Scanned
    ensures { result ≡ line_at s.now at }
{
    let mut count = 0;
    let mut place = [0; 5];
    for i in at..s.len() {
        let b = s[i];
        if is_plain(b) {
            continue;
        }
        if b == 10 {
            return Scanned {
                good: true,
                end: i,
                tabs: Tabs { count, place },
            };
        }
        if b != 9 {
            break;
        }
        if count < 5 {
            place[count] = i;
            count += 1;
        }
    }
    Scanned {
        good: false,
        end: 0,
        tabs: Tabs {
            count: 0,
            place: [0; 5],
        },
    }
}
