// A row and its link delays as the numbers that are lent.
#![tactic(auto)]

ghost use Rattle.std.specs.Prelude.{◌≡◌, ◌+◌, ◌≤◌, length};
ghost use Rattle.flows.specs.Lists.{held, net_of};
ghost use Rattle.nets.specs.Nets.{Whole, count_in, room_in, net_in};
ghost use Rattle.drawing.specs.Drawing.{DrawnAt};

use flows::{Flow, NODES, Row};

// A flow's numbers, from that place on.
fn draw(net: &mut [u16], f: Flow, at: usize)
    requires { (at ≤ 1000) × (at + 22 ≤ length net.old) }
    ensures { DrawnAt f at net.old net.new }
{
    net[at] = u16::from(f.number);
    net[at + 1] = u16::from(f.priority);
    net[at + 2] = f.period;
    net[at + 3] = f.jitter;
    net[at + 4] = f.deadline;
    net[at + 5] = u16::from(f.length);
    for k in 0..NODES {
        net[at + 6 + 2 * k] = u16::from(f.nodes[k]);
        net[at + 7 + 2 * k] = f.costs[k];
    }
}

// A row and its link delays as numbers. The head comes last, so that what is read of it first is what was written last.
pub fn picture(net: &mut [u16], row: Row, lmin: u16, lmax: u16)
    requires { length net.old ≡ 356 }
    ensures numbers { net_in net.new ≡ net_of lmin lmax row }
    ensures shape { (count_in net.new ≡ length (held row)) × (count_in net.new ≤ 16) × (room_in net.new ≡ 8) × Whole net.new }
{
    let n = row::size(row);
    for a in 0..n {
        draw(net, row::flow_at(row, a), 4 + a * 22);
    }
    net[0] = n as u16;
    net[1] = NODES as u16;
    net[2] = lmin;
    net[3] = lmax;
}
