// The fixed parts of a page, in the order in which they stand there. `specs/` cites them.

// ---- the page's own head
pub(crate) const PAGE_FRONT: &str = "\
<!DOCTYPE html>
<html lang=\"en\">
<head>
<meta charset=\"utf-8\">
<meta name=\"viewport\" content=\"width=device-width, initial-scale=1\">
<title>";

pub(crate) const PAGE_STYLE: &str = "\
</title>
<style>
:root{color-scheme:light \
dark;--page:#fff;--ink:#1b1f24;--soft:#59636e;--rule:#d5dae0;--cut:#eef1f4;
--memory:#bcd7f5;--memory-edge:#2f6fb5;--outside:#bfe6cf;--outside-edge:#1f7f4f;
--failure:#fac8b8;--failure-edge:#b8401a;--mark:#8a1fb0}
@media (prefers-color-scheme:dark){
:root{--page:#14171b;--ink:#e8ebee;--soft:#a3adb8;--rule:#3a424b;--cut:#242a31;
--memory:#1f4674;--memory-edge:#6fb0f2;--outside:#1d5a3c;--outside-edge:#64cf98;
--failure:#76301a;--failure-edge:#f59a78;--mark:#d98cf5}}
body{margin:16px;background:var(--page);color:var(--ink);font:15px/1.5 system-ui,sans-serif}
h1{font-size:20px;margin:0 0 8px;overflow-wrap:anywhere}
p{max-width:75em;margin:6px 0}
.legend{color:var(--soft)}
.legend span{white-space:nowrap;margin-right:16px}
.legend svg{vertical-align:-4px}
.first{color:var(--mark);font-weight:600}
.picture{display:flex;overflow-x:auto;margin:12px 0;border:1px solid var(--rule)}
.picture>svg{flex:none}
.threads{position:sticky;left:0;background:var(--page);border-right:1px solid var(--rule)}
svg text{fill:var(--ink);font:12px ui-monospace,monospace}
svg .name{font:600 14px system-ui,sans-serif}
.tick text{fill:var(--soft);text-anchor:middle}
.tick path{stroke:var(--rule)}
.cut{fill:var(--cut)}
.memory{--fill:var(--memory);--edge:var(--memory-edge)}
.outside{--fill:var(--outside);--edge:var(--outside-edge)}
.failure{--fill:var(--failure);--edge:var(--failure-edge)}
.box path{stroke:var(--soft);stroke-width:2}
.box rect{fill:var(--fill);stroke:var(--edge)}
.box svg text{font-size:11px;paint-order:stroke;stroke:var(--fill);stroke-width:3px}
.box .waited{fill:url(#hatch);stroke:none}
.box .early{fill:url(#hatch);stroke-dasharray:3 3}
#hatch rect{fill:var(--ink);opacity:.3;stroke:none}
.outcome{fill:var(--outside-edge);color:var(--outside-edge);font:12px \
ui-monospace,monospace;text-anchor:end}
.box.differs svg rect:first-of-type{stroke:var(--mark);stroke-width:6px}
.tables{display:flex;flex-wrap:wrap;gap:24px;align-items:flex-start}
table{border-collapse:collapse;font:13px ui-monospace,monospace}
caption{text-align:left;font:600 14px system-ui,sans-serif;padding:4px 0;overflow-wrap:anywhere}
th,td{text-align:left;vertical-align:top;padding:2px 10px;border-bottom:1px solid \
var(--rule);overflow-wrap:anywhere}
:is(th,td):nth-child(-n+5){text-align:right}
td:last-child{min-width:12ch}
tr:is(.outside,.failure) td:last-child{color:var(--edge)}
tr.differs{outline:2px solid var(--mark)}
</style>
</head>
<body>
<h1>";

pub(crate) const PAGE_HEADING_END: &str = "</h1>\n";

// ---- where two runs differ
pub(crate) const DIFFERS_ROW: &str = "<p class=\"first\">The first row that differs is row ";

pub(crate) const DIFFERS_THREAD: &str = " of thread ";

pub(crate) const LINK_FRONT: &str = " &middot; <a href=\"#";

pub(crate) const LINK_NAME: &str = "\">";

pub(crate) const LINK_END: &str = "</a>";

pub(crate) const NO_ROW_FRONT: &str = " &middot; ";

pub(crate) const NO_ROW_END: &str = " has none";

pub(crate) const DIFFERS_END: &str = "</p>\n";

// ---- what the colours and the axis are
pub(crate) const LEGEND: &str = "\
<p class=\"legend\"><span><svg class=\"box memory\" width=\"56\" height=\"20\"><rect \
width=\"100%\" height=\"20\"/></svg> in memory</span>
<span><svg class=\"box outside\" width=\"56\" height=\"20\"><rect width=\"100%\" \
height=\"20\"/></svg> with an outcome from outside</span>
<span><svg class=\"box failure\" width=\"56\" height=\"20\"><rect width=\"100%\" \
height=\"20\"/></svg> failed</span>
<span><svg class=\"box memory\" width=\"56\" height=\"20\"><rect width=\"100%\" \
height=\"20\"/><rect class=\"waited\" width=\"34\" height=\"20\"/></svg> waited</span>
<span><svg class=\"box memory\" width=\"34\" height=\"20\"><rect class=\"early\" \
width=\"100%\" height=\"20\"/></svg> waited for its first turn</span>
<span><b class=\"outcome\">&#9660;2</b> outcome 2 of its thread came last for it</span></p>
<p class=\"legend\">A lane is a thread. From left to right goes the logical clock, at the same \
place in all lanes. It is cut where nothing begins or ends
for more than 8 clocks: 8 are drawn, shaded. A box is a call. It begins at the first turn that \
the call was granted, and ends at its answer.
It is hatched where the call waited: it was blocked, or attempts at its object's lock failed. \
The hatching before it is where attempts at
the table's lock failed. A line between two boxes is work of the thread. Point at a box to read \
its call.</p>
";

// ---- the names of the lanes
pub(crate) const PICTURE_FRONT: &str =
    "<div class=\"picture\">\n<svg class=\"threads\" width=\"92\" height=\"";

pub(crate) const PICTURE_FRONT_END: &str = "\">\n";

pub(crate) const LANES_FRONT: &str = "<g transform=\"translate(8 ";

pub(crate) const LANES_FRONT_END: &str = ")\">\n";

pub(crate) const LANE_FRONT: &str = "<g transform=\"translate(0 ";

pub(crate) const LANE_NAME: &str = ")\"><text y=\"73\">thread ";

pub(crate) const LANE_END: &str = "</text></g>\n";

pub(crate) const GROUP_END: &str = "</g>\n";

// ---- the axis
pub(crate) const CHART_FRONT: &str = "</svg>\n<svg width=\"";

pub(crate) const CHART_HEIGHT: &str = "\" height=\"";

pub(crate) const CHART_FRONT_END: &str = "\
\">
<defs><pattern id=\"hatch\" width=\"7\" height=\"7\" patternUnits=\"userSpaceOnUse\" \
patternTransform=\"rotate(45)\"><rect width=\"3\" height=\"7\"/></pattern></defs>
";

pub(crate) const CUT_FRONT: &str = "<rect class=\"cut\" x=\"";

pub(crate) const CUT_END: &str = "\" width=\"160\" height=\"100%\"/>\n";

pub(crate) const RUN_FRONT: &str = "<g transform=\"translate(0 ";

pub(crate) const RUN_NAME: &str = ")\">\n<text class=\"name\" x=\"20\" y=\"17\">";

pub(crate) const RUN_NAME_END: &str = "</text>\n";

pub(crate) const TICK_FRONT: &str = "<g class=\"tick\" transform=\"translate(";

pub(crate) const TICK_LINE: &str = " 0)\"><path d=\"M0 44v";

pub(crate) const TICK_CLOCK: &str = "\"/><text y=\"38\">";

pub(crate) const TICK_END: &str = "</text></g>\n";

// ---- boxes
pub(crate) const BOXES_FRONT: &str = "<g transform=\"translate(0 46)\">\n";

pub(crate) const BOX_FRONT: &str = "<g class=\"box ";

pub(crate) const BOX_LEFT: &str = "\" transform=\"translate(";

pub(crate) const BOX_TOP: &str = " ";

pub(crate) const BOX_TITLE: &str = ")\"><title>";

pub(crate) const BOX_LINE: &str = "</title><path d=\"M-";

pub(crate) const BOX_LINE_LENGTH: &str = " 26h-";

pub(crate) const BOX_LINE_END: &str = "\"/>";

pub(crate) const EARLY_FRONT: &str = "<rect class=\"early\" y=\"14\" height=\"24\" x=\"-";

pub(crate) const EARLY_WIDTH: &str = "\" width=\"";

pub(crate) const EARLY_END: &str = "\"/>";

pub(crate) const BOX_WIDTH: &str = "<svg y=\"14\" height=\"24\" width=\"";

pub(crate) const BOX_WAIT: &str =
    "\"><rect width=\"100%\" height=\"24\"/><rect class=\"waited\" height=\"24\" x=\"";

pub(crate) const BOX_WAITED: &str = "\" width=\"";

pub(crate) const BOX_WORD: &str = "\"/><text x=\"4\" y=\"16\">";

pub(crate) const BOX_WORD_END: &str = "</text></svg>";

pub(crate) const MARK_FRONT: &str = "<text class=\"outcome\" y=\"11\" x=\"";

pub(crate) const MARK_NUMBER: &str = "\">&#9660;";

pub(crate) const MARK_END: &str = "</text>";

pub(crate) const RUN_END: &str = "</g>\n</g>\n";

pub(crate) const PICTURE_END: &str = "\
</svg>
</div>
<div class=\"tables\">
";

// ---- tables
pub(crate) const TABLE_FRONT: &str = "<table>\n<caption>";

pub(crate) const TABLE_STOP: &str = ": ";

pub(crate) const TABLE_HEAD: &str = "\
</caption>
<thead><tr><th>thread</th><th>row</th><th>line</th><th>first \
turn</th><th>turn</th><th>call</th><th>reply</th></tr></thead>
<tbody>
";

pub(crate) const ROW_FRONT: &str = "<tr class=\"";

pub(crate) const ROW_NAME: &str = "\" id=\"";

pub(crate) const ROW_CELLS: &str = "\"><td>";

pub(crate) const CELL: &str = "</td><td>";

pub(crate) const ROW_END: &str = "</td></tr>\n";

pub(crate) const TABLE_END: &str = "</tbody>\n</table>\n";

pub(crate) const PAGE_END: &str = "\
</div>
</body>
</html>
";
