//! Drawings as they were worked out by hand: column P begins at 190 P, and row R at 24 R. Each begins with its size, its title and
//! its description; the look of all of them stands behind that, and then what is drawn.

/// The style, and the heads of arrows.
pub const LOOK: &str = "<style>\
    text{font:12px DejaVu Sans,Verdana,sans-serif;fill:#1f2933;paint-order:stroke;stroke:#fff;stroke-width:3px;stroke-linejoin:round}\
    .paper{fill:#fff}.title{font-size:14px}.state{fill:#52606d}\
    .lane{stroke:#9aa5b1;stroke-width:1.5}.head{fill:#f0f4f8;stroke:#9aa5b1}.pid,.status{text-anchor:middle}.pid{stroke:none}\
    .number{fill:#7b8794;text-anchor:end}.place{fill:#52606d;font-size:11px}.bar{fill:#cfe3f7;stroke:#3f77b0}.put{fill:#b35c00}\
    .over{fill:#fff;stroke:#3f77b0;stroke-width:2}.name,.left{fill:#6b3fa0}.shown{fill:#0b6e4f;font-weight:bold}.bad{fill:#ba2525;font-weight:bold}\
    .message,.signal,.spawn{fill:none;stroke-width:1.6}.waiting{stroke-dasharray:5 4}\
    .message{stroke:#b35c00;marker-end:url(#message-head)}.message-head{fill:#b35c00}\
    .signal{stroke:#8a4fc7;marker-end:url(#signal-head)}.signal-head{fill:#8a4fc7}\
    .spawn{stroke:#3f77b0;marker-end:url(#spawn-head)}.spawn-head{fill:#3f77b0}</style>
<defs><marker id=\"message-head\" class=\"message-head\" viewBox=\"0 0 8 8\" refX=\"8\" refY=\"4\" markerWidth=\"8\" markerHeight=\"8\" orient=\"auto\"><path d=\"M0 0L8 4L0 8z\"></path>
</marker>
<marker id=\"signal-head\" class=\"signal-head\" viewBox=\"0 0 8 8\" refX=\"8\" refY=\"4\" markerWidth=\"8\" markerHeight=\"8\" orient=\"auto\"><path d=\"M0 0L8 4L0 8z\"></path>
</marker>
<marker id=\"spawn-head\" class=\"spawn-head\" viewBox=\"0 0 8 8\" refX=\"8\" refY=\"4\" markerWidth=\"8\" markerHeight=\"8\" orient=\"auto\"><path d=\"M0 0L8 4L0 8z\"></path>
</marker>
</defs>
";

/// What stands before the look, and what stands behind it.
pub type Drawing = (&'static str, &'static str);

/// Two events of one process: it ran, and it showed a term and ended.
pub const HELLO: Drawing = (
    "<svg xmlns=\"http://www.w3.org/2000/svg\" role=\"img\" width=\"440\" height=\"192\" viewBox=\"0 0 440 192\"><title>Schedule hello</title>
<desc>Schedule hello: 2 choices, state quiet</desc>
",
    "<rect class=\"paper\" x=\"0\" y=\"0\" width=\"440\" height=\"192\"></rect>
<line class=\"lane\" x1=\"170\" y1=\"26\" x2=\"170\" y2=\"88\"></line>
<rect class=\"head\" x=\"136\" y=\"26\" width=\"68\" height=\"20\"></rect>
<text class=\"pid\" x=\"170\" y=\"40\">&lt;0.0.0&gt;</text>
<g class=\"row\"><title>m.erl:4 .. 5: {move,{atom,hello},{x,0}}</title>
<rect class=\"bar\" x=\"164\" y=\"57\" width=\"12\" height=\"14\"></rect>
<text class=\"number\" x=\"120\" y=\"68\">1</text>
<text class=\"place\" x=\"188\" y=\"68\">m.erl:4 .. 5</text>
</g>
<g class=\"row\"><title>hello: {call_ext_only,1,{extfunc,erlang,display,1}}</title>
<rect class=\"bar\" x=\"164\" y=\"81\" width=\"12\" height=\"14\"></rect>
<text class=\"number\" x=\"120\" y=\"92\">2</text>
<text class=\"shown\" x=\"188\" y=\"92\">hello</text>
</g>
<text class=\"status\" x=\"170\" y=\"106\">ended normal</text>
<text class=\"title\" x=\"12\" y=\"18\">Schedule hello: 2 choices, state quiet</text>
<text class=\"state\" x=\"12\" y=\"172\">state quiet</text>
</svg>
",
);

/// Seven events of two processes: the second is spawned in row 1, and its message comes from row 3 and arrives in row 4.
pub const ONE: Drawing = (
    "<svg xmlns=\"http://www.w3.org/2000/svg\" role=\"img\" width=\"630\" height=\"312\" viewBox=\"0 0 630 312\"><title>Schedule one</title>
<desc>Schedule one: 9 choices, state open</desc>
",
    "<rect class=\"paper\" x=\"0\" y=\"0\" width=\"630\" height=\"312\"></rect>
<line class=\"lane\" x1=\"170\" y1=\"26\" x2=\"170\" y2=\"232\"></line>
<rect class=\"head\" x=\"136\" y=\"26\" width=\"68\" height=\"20\"></rect>
<text class=\"pid\" x=\"170\" y=\"40\">&lt;0.0.0&gt;</text>
<line class=\"lane\" x1=\"360\" y1=\"74\" x2=\"360\" y2=\"232\"></line>
<rect class=\"head\" x=\"326\" y=\"74\" width=\"68\" height=\"20\"></rect>
<text class=\"pid\" x=\"360\" y=\"88\">&lt;0.1.0&gt;</text>
<line class=\"spawn\" x1=\"170\" y1=\"88\" x2=\"325\" y2=\"84\"></line>
<line class=\"message\" x1=\"170\" y1=\"136\" x2=\"358\" y2=\"160\"></line>
<g class=\"row\"><title>: {move,{atom,m},{x,0}} .. {move,nil,{x,2}}</title>
<rect class=\"bar\" x=\"164\" y=\"57\" width=\"12\" height=\"14\"></rect>
<text class=\"number\" x=\"120\" y=\"68\">1..3</text>
<text class=\"place\" x=\"188\" y=\"68\"></text>
</g>
<g class=\"row\"><title>: {call_ext,3,{extfunc,erlang,spawn,3}}</title>
<rect class=\"bar\" x=\"164\" y=\"81\" width=\"12\" height=\"14\"></rect>
<text class=\"number\" x=\"120\" y=\"92\">4</text>
<text class=\"place\" x=\"188\" y=\"92\"></text>
</g>
<g class=\"row\"><title>: {move,{atom,a},{x,1}}</title>
<rect class=\"bar\" x=\"164\" y=\"105\" width=\"12\" height=\"14\"></rect>
<text class=\"number\" x=\"120\" y=\"116\">5</text>
<text class=\"place\" x=\"188\" y=\"116\"></text>
</g>
<g class=\"row\"><title>: send</title>
<rect class=\"bar\" x=\"164\" y=\"129\" width=\"12\" height=\"14\"></rect>
<circle class=\"put\" cx=\"170\" cy=\"136\" r=\"5\"></circle>
<text class=\"number\" x=\"120\" y=\"140\">6</text>
<text class=\"place\" x=\"188\" y=\"140\"></text>
</g>
<g class=\"row\"><title>a</title>
<text class=\"number\" x=\"120\" y=\"164\">7</text>
<text class=\"term\" x=\"378\" y=\"164\">a</text>
</g>
<g class=\"row\"><title>m.erl:9: {loop_rec,{f,6},{x,0}}</title>
<rect class=\"bar\" x=\"354\" y=\"177\" width=\"12\" height=\"14\"></rect>
<text class=\"number\" x=\"120\" y=\"188\">8</text>
<text class=\"place\" x=\"378\" y=\"188\">m.erl:9</text>
</g>
<g class=\"row\"><title>takes m.erl:9: a</title>
<rect class=\"bar\" x=\"354\" y=\"201\" width=\"12\" height=\"14\"></rect>
<text class=\"number\" x=\"120\" y=\"212\">9</text>
<text class=\"place\" x=\"378\" y=\"212\">takes m.erl:9</text>
</g>
<text class=\"status\" x=\"170\" y=\"250\">ready</text>
<text class=\"status\" x=\"360\" y=\"250\">ready</text>
<text class=\"title\" x=\"12\" y=\"18\">Schedule one: 9 choices, state open</text>
<text class=\"state\" x=\"12\" y=\"292\">state open</text>
</svg>
",
);

/// The same as far as the message is sent: it waits, so its arrow is dashed, and ends two rows below the four events.
pub const LEFT: Drawing = (
    "<svg xmlns=\"http://www.w3.org/2000/svg\" role=\"img\" width=\"630\" height=\"264\" viewBox=\"0 0 630 264\"><title>Schedule left</title>
<desc>Schedule left: 6 choices, state open</desc>
",
    "<rect class=\"paper\" x=\"0\" y=\"0\" width=\"630\" height=\"264\"></rect>
<line class=\"lane\" x1=\"170\" y1=\"26\" x2=\"170\" y2=\"160\"></line>
<rect class=\"head\" x=\"136\" y=\"26\" width=\"68\" height=\"20\"></rect>
<text class=\"pid\" x=\"170\" y=\"40\">&lt;0.0.0&gt;</text>
<line class=\"lane\" x1=\"360\" y1=\"74\" x2=\"360\" y2=\"160\"></line>
<rect class=\"head\" x=\"326\" y=\"74\" width=\"68\" height=\"20\"></rect>
<text class=\"pid\" x=\"360\" y=\"88\">&lt;0.1.0&gt;</text>
<line class=\"spawn\" x1=\"170\" y1=\"88\" x2=\"325\" y2=\"84\"></line>
<line class=\"message waiting\" x1=\"170\" y1=\"136\" x2=\"358\" y2=\"208\"></line>
<g class=\"row\"><title>: {move,{atom,m},{x,0}} .. {move,nil,{x,2}}</title>
<rect class=\"bar\" x=\"164\" y=\"57\" width=\"12\" height=\"14\"></rect>
<text class=\"number\" x=\"120\" y=\"68\">1..3</text>
<text class=\"place\" x=\"188\" y=\"68\"></text>
</g>
<g class=\"row\"><title>: {call_ext,3,{extfunc,erlang,spawn,3}}</title>
<rect class=\"bar\" x=\"164\" y=\"81\" width=\"12\" height=\"14\"></rect>
<text class=\"number\" x=\"120\" y=\"92\">4</text>
<text class=\"place\" x=\"188\" y=\"92\"></text>
</g>
<g class=\"row\"><title>: {move,{atom,a},{x,1}}</title>
<rect class=\"bar\" x=\"164\" y=\"105\" width=\"12\" height=\"14\"></rect>
<text class=\"number\" x=\"120\" y=\"116\">5</text>
<text class=\"place\" x=\"188\" y=\"116\"></text>
</g>
<g class=\"row\"><title>: send</title>
<rect class=\"bar\" x=\"164\" y=\"129\" width=\"12\" height=\"14\"></rect>
<circle class=\"put\" cx=\"170\" cy=\"136\" r=\"5\"></circle>
<text class=\"number\" x=\"120\" y=\"140\">6</text>
<text class=\"place\" x=\"188\" y=\"140\"></text>
</g>
<text class=\"status\" x=\"170\" y=\"178\">ready</text>
<text class=\"status\" x=\"360\" y=\"178\">ready</text>
<text class=\"left\" x=\"378\" y=\"212\">a</text>
<text class=\"title\" x=\"12\" y=\"18\">Schedule left: 6 choices, state open</text>
<text class=\"state\" x=\"12\" y=\"244\">state open</text>
</svg>
",
);

/// One event, which is a trap.
pub const OVER: Drawing = (
    "<svg xmlns=\"http://www.w3.org/2000/svg\" role=\"img\" width=\"440\" height=\"168\" viewBox=\"0 0 440 168\"><title>Schedule over</title>
<desc>Schedule over: 1 choices, state trapped IntegerRange &lt;0.0.0&gt;</desc>
",
    "<rect class=\"paper\" x=\"0\" y=\"0\" width=\"440\" height=\"168\"></rect>
<line class=\"lane\" x1=\"170\" y1=\"26\" x2=\"170\" y2=\"88\"></line>
<rect class=\"head\" x=\"136\" y=\"26\" width=\"68\" height=\"20\"></rect>
<text class=\"pid\" x=\"170\" y=\"40\">&lt;0.0.0&gt;</text>
<g class=\"row\"><title>trapped IntegerRange: {gc_bif,&#39;+&#39;,{f,0},0,[{integer,9223372036854775807},{integer,1}],{x,0}}</title>
<rect class=\"bar\" x=\"164\" y=\"57\" width=\"12\" height=\"14\"></rect>
<text class=\"number\" x=\"120\" y=\"68\">1</text>
<text class=\"bad\" x=\"188\" y=\"68\">trapped IntegerRange</text>
</g>
<text class=\"status\" x=\"170\" y=\"106\">ready</text>
<text class=\"title\" x=\"12\" y=\"18\">Schedule over: 1 choices, state trapped IntegerRange &lt;0.0.0&gt;</text>
<text class=\"state\" x=\"12\" y=\"148\">state trapped IntegerRange &lt;0.0.0&gt;</text>
</svg>
",
);

/// Two events, of which the second is an exit that is not `normal`; and a choice that is refused.
pub const OOPS: Drawing = (
    "<svg xmlns=\"http://www.w3.org/2000/svg\" role=\"img\" width=\"440\" height=\"192\" viewBox=\"0 0 440 192\"><title>Schedule oops</title>
<desc>Schedule oops: 2 choices, state stopped r0</desc>
",
    "<rect class=\"paper\" x=\"0\" y=\"0\" width=\"440\" height=\"192\"></rect>
<line class=\"lane\" x1=\"170\" y1=\"26\" x2=\"170\" y2=\"88\"></line>
<rect class=\"head\" x=\"136\" y=\"26\" width=\"68\" height=\"20\"></rect>
<text class=\"pid\" x=\"170\" y=\"40\">&lt;0.0.0&gt;</text>
<g class=\"row\"><title>: {move,{atom,oops},{x,0}}</title>
<rect class=\"bar\" x=\"164\" y=\"57\" width=\"12\" height=\"14\"></rect>
<text class=\"number\" x=\"120\" y=\"68\">1</text>
<text class=\"place\" x=\"188\" y=\"68\"></text>
</g>
<g class=\"row\"><title>: {call_ext_only,1,{extfunc,erlang,exit,1}}</title>
<rect class=\"bar\" x=\"164\" y=\"81\" width=\"12\" height=\"14\"></rect>
<text class=\"number\" x=\"120\" y=\"92\">2</text>
<text class=\"place\" x=\"188\" y=\"92\"></text>
</g>
<text class=\"bad status\" x=\"170\" y=\"106\">ended oops</text>
<text class=\"title\" x=\"12\" y=\"18\">Schedule oops: 2 choices, state stopped r0</text>
<text class=\"state\" x=\"12\" y=\"172\">state stopped r0</text>
</svg>
",
);

/// Four events: marks of markup go by their names, and of 41 letters one is cut off, but for the title of the row.
pub const MARKS: Drawing = (
    "<svg xmlns=\"http://www.w3.org/2000/svg\" role=\"img\" width=\"440\" height=\"240\" viewBox=\"0 0 440 240\"><title>Schedule marks</title>
<desc>Schedule marks: 4 choices, state quiet</desc>
",
    "<rect class=\"paper\" x=\"0\" y=\"0\" width=\"440\" height=\"240\"></rect>
<line class=\"lane\" x1=\"170\" y1=\"26\" x2=\"170\" y2=\"136\"></line>
<rect class=\"head\" x=\"136\" y=\"26\" width=\"68\" height=\"20\"></rect>
<text class=\"pid\" x=\"170\" y=\"40\">&lt;0.0.0&gt;</text>
<g class=\"row\"><title>: {move,{atom,&#39;&lt;a&gt; &amp; &quot;b&quot;&#39;},{x,0}}</title>
<rect class=\"bar\" x=\"164\" y=\"57\" width=\"12\" height=\"14\"></rect>
<text class=\"number\" x=\"120\" y=\"68\">1</text>
<text class=\"place\" x=\"188\" y=\"68\"></text>
</g>
<g class=\"row\"><title>&#39;&lt;a&gt; &amp; &quot;b&quot;&#39;: {call_ext,1,{extfunc,erlang,display,1}}</title>
<rect class=\"bar\" x=\"164\" y=\"81\" width=\"12\" height=\"14\"></rect>
<text class=\"number\" x=\"120\" y=\"92\">2</text>
<text class=\"shown\" x=\"188\" y=\"92\">&#39;&lt;a&gt; &amp; &quot;b&quot;&#39;</text>
</g>
<g class=\"row\"><title>: {move,{atom,abcdefghijklmnopqrstuvwxyzabcdefghijklmno},{x,0}}</title>
<rect class=\"bar\" x=\"164\" y=\"105\" width=\"12\" height=\"14\"></rect>
<text class=\"number\" x=\"120\" y=\"116\">3</text>
<text class=\"place\" x=\"188\" y=\"116\"></text>
</g>
<g class=\"row\"><title>abcdefghijklmnopqrstuvwxyzabcdefghijklmno: {call_ext_only,1,{extfunc,erlang,display,1}}</title>
<rect class=\"bar\" x=\"164\" y=\"129\" width=\"12\" height=\"14\"></rect>
<text class=\"number\" x=\"120\" y=\"140\">4</text>
<text class=\"shown\" x=\"188\" y=\"140\">abcdefghijklmnopqrstuvwxyzabcdefghijklmn..</text>
</g>
<text class=\"status\" x=\"170\" y=\"154\">ended normal</text>
<text class=\"title\" x=\"12\" y=\"18\">Schedule marks: 4 choices, state quiet</text>
<text class=\"state\" x=\"12\" y=\"220\">state quiet</text>
</svg>
",
);
