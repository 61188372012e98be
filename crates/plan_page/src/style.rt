//! The texts of a page that no model changes.

/// The head, up to the style.
pub const HEAD: &str = "<!DOCTYPE html>
<html lang=\"en\">
<head>
<meta charset=\"utf-8\">
<meta name=\"viewport\" content=\"width=device-width, initial-scale=1\">
<link rel=\"icon\" href=\"data:,\">
<title>Production plan</title>
<style>
";

/// The style, and the end of the head: light, dark where the reader's setting says so, and black on white in print.
pub const STYLE: &str =
    ":root{color-scheme:light;--paper:#fff;--ink:#1b1f24;--soft:#555d66;--rule:#d5dae0;--panel:#f4f6f8;--link:#0a58a8;--late:#b3261e;--stock:#5b2c91;--gap:#9a5b00;
--c0:#0072b2;--c1:#e69f00;--c2:#009e73;--c3:#cc79a7;--c4:#56b4e9;--c5:#d55e00;--c6:#7d6bb8;--c7:#8a8f96}
@media (prefers-color-scheme:dark){:root{color-scheme:dark;--paper:#14181d;--ink:#e7eaee;--soft:#a9b2bc;--rule:#353c45;--panel:#1d232a;--link:#8cbcff;--late:#ff8a80;--stock:#d0b0ff;--gap:#f0b45a;
--c0:#2b8fd0;--c1:#e69f00;--c2:#14b088;--c3:#d78fb5;--c4:#6cc0ee;--c5:#e8772a;--c6:#9c8bd6;--c7:#9aa1a9}}
*{box-sizing:border-box}
body{margin:0;background:var(--paper);color:var(--ink);font:15px/1.5 system-ui,sans-serif;font-variant-numeric:tabular-nums}
main{padding:1rem 1.25rem 3rem;min-width:0}
nav{padding:1rem 1.25rem;background:var(--panel);font-size:14px;max-height:11rem;overflow:auto}
nav h2{font-size:13px;margin:.6rem 0 .2rem;color:var(--soft);border:0;padding:0}
nav ul{list-style:none;margin:0;padding:0;display:flex;flex-wrap:wrap;gap:.1rem .9rem}
a{color:var(--link)}
a,h1,h2,.legend span{overflow-wrap:anywhere}
h1{font-size:26px;line-height:1.2;margin:.2rem 0 .8rem}
h2{font-size:19px;line-height:1.3;margin:2.2rem 0 .5rem;padding-top:.7rem;border-top:1px solid var(--rule)}
p{margin:.3rem 0;color:var(--soft);max-width:60rem}
b{color:var(--ink)}
.key{display:flex;flex-wrap:wrap;gap:.4rem 2rem}
.key b{font-size:22px;display:block;line-height:1.2}
.legend{display:flex;flex-wrap:wrap;gap:.1rem 1rem;font-size:13px}
.legend svg{vertical-align:-3px;margin-right:.35rem}
i{display:inline-block;width:.8rem;height:.8rem;margin-right:.4rem;vertical-align:-1px;background:var(--c)}
.scroll{overflow-x:auto;max-width:100%}
svg{display:block}
.legend svg{display:inline-block}
.bar{width:100%;height:24px;margin:.5rem 0}
svg text{font-size:11px;fill:var(--soft);text-anchor:middle}
svg .tick{text-anchor:end}
svg .share{fill:var(--ink);font-size:10px}
.slot{fill:transparent}
.slot:hover{fill:var(--panel)}
.rule{fill:none;stroke:var(--rule)}
.axis{fill:none;stroke:var(--soft)}
.capacity{fill:none;stroke:var(--ink);stroke-width:2}
.run,.setup,.lot{fill:var(--c);stroke:var(--paper);stroke-width:1}
.setup{fill-opacity:.45}
.e1{stroke:var(--ink)}
.e2{stroke:var(--ink);stroke-dasharray:5 3}
.e3{stroke:var(--ink);stroke-dasharray:1 3}
.e4{stroke:var(--ink);stroke-width:2.5}
i.e1,i.e4{outline:2px solid var(--ink)}
i.e2{outline:2px dashed var(--ink)}
i.e3{outline:2px dotted var(--ink)}
.demand,.use{fill:none;stroke:var(--ink);stroke-width:1.5}
.use{stroke-dasharray:4 3}
.idle{fill:none;stroke:var(--late);stroke-width:1.5}
.late{fill:var(--late)}
.stocks{fill:none;stroke:var(--stock);stroke-width:2;pointer-events:none}
circle.stock{fill:var(--stock)}
.bound{fill:var(--c2)}
.gap{fill:var(--gap);fill-opacity:.55}
.Setups{fill:var(--c0);--c:var(--c0)}
.Making{fill:var(--c1);--c:var(--c1)}
.Holding{fill:var(--c2);--c:var(--c2)}
.Backlog{fill:var(--c5);--c:var(--c5)}
.c0{--c:var(--c0)}.c1{--c:var(--c1)}.c2{--c:var(--c2)}.c3{--c:var(--c3)}.c4{--c:var(--c4)}.c5{--c:var(--c5)}.c6{--c:var(--c6)}.c7{--c:var(--c7)}
details{margin:.6rem 0}
summary{cursor:pointer;color:var(--link);font-size:14px}
table{border-collapse:collapse;margin:.5rem 0;font-size:14px}
th,td{padding:.22rem .8rem;text-align:right;border-bottom:1px solid var(--rule);white-space:nowrap}
th:first-child,th[scope=row]{text-align:left;padding-left:0}
td:first-child{padding-left:0}
thead th{color:var(--soft);font-weight:600}
th[scope=row]{font-weight:400}
@media (min-width:60rem){body{display:grid;grid-template-columns:15rem minmax(0,1fr)}nav{position:sticky;top:0;height:100vh;max-height:none}nav ul{display:block}}
@media print{:root{color-scheme:light;--paper:#fff;--ink:#000;--soft:#000;--rule:#999;--panel:#fff;--link:#000;--late:#a00;--stock:#404}body{display:block}nav{display:none}.scroll{overflow:visible}.scroll svg{max-width:100%;height:auto}section{break-inside:avoid}*{print-color-adjust:exact}}
</style>
</head>
<body>
";

/// The start of the sections.
pub const TITLE: &str = "<main>
<h1>Production plan</h1>
";

/// What the marks of the items' charts look like.
pub const ITEMS: &str = "<section id=\"items\"><h2>Items</h2>
<p class=\"legend\"><span><svg width=\"16\" height=\"16\"><rect class=\"demand\" x=\"2\" y=\"2\" width=\"12\" height=\"13\"/></svg>demand</span>
<span><svg width=\"16\" height=\"16\"><rect class=\"use\" x=\"2\" y=\"2\" width=\"12\" height=\"13\"/></svg>use by other items</span>
<span><svg width=\"16\" height=\"16\"><rect class=\"lot c0\" x=\"4\" y=\"2\" width=\"8\" height=\"14\"/></svg>lot, in the period in which it is started</span>
<span><svg width=\"16\" height=\"16\"><path class=\"idle\" d=\"M8 15l7 -12h-14z\"/></svg>setup without a lot</span>
<span><svg width=\"16\" height=\"16\"><path class=\"stocks\" d=\"M0 12L16 4\"/></svg>stock at the end of the period</span>
<span><svg width=\"16\" height=\"16\"><rect class=\"late\" x=\"3\" y=\"2\" width=\"10\" height=\"12\"/></svg>backlog</span></p>
</section>
";

/// The end of a page.
pub const END: &str = "</main>
</body>
</html>
";
